//! A file is made, by two sessions, of which the second may meet a fault.
use crate::history::{ATTRIBUTES, Ask, FIRST, SECOND};
use disk_memory::Memory;
use disk_trait::{Disk, Steps};
use file_making::make;
use grid_store::{Store, open_store};
use grid_types::{Data, Geometry, Half, Key, PAGE_BYTES, Record, Shape};
use std::alloc::{AllocError, Global};
use std::fmt;
use std::sync::ledger::Ledger;

/// The shape of the file.
const SHAPE: Shape = Shape {
    k: 2,
    capacity: 2,
    pages: 16,
    slots: 8,
    boundaries: 100,
    cells: 1000,
};

/// More disk calls than a session makes.
const ALL_CALLS: u64 = 1000;

/// Which file is made.
#[derive(Clone, Copy, Debug)]
pub enum Kind {
    /// Batches in both halves of the journal behind the one root that is open: a root step failed.
    Unrooted,
    /// Two open roots, and batches behind the newer one in one half: no call failed.
    Settled,
}

impl fmt::Display for Kind {
    fn fmt<W: fmt::Write>(&self, f: &mut fmt::Formatter<W>) -> fmt::Result {
        match *self {
            Kind::Unrooted => write!(f, "behind a root step that failed"),
            Kind::Settled => write!(f, "with two roots"),
        }
    }
}

/// A file, where its pages are, and its bytes.
#[derive(Drop)]
pub struct Made {
    pub geometry: Geometry,
    pub bytes: Vec<u8>,
}

/// The store answers an update: whether it was not refused. A root step may be refused.
fn is_answered<D: Disk, L: Ledger>(
    store: &mut Store<ATTRIBUTES, D>,
    ask: Ask,
    steps: &mut Steps<L>,
) -> bool {
    match ask {
        Ask::Put(numbers, byte) => match Data::new(&[byte]) {
            Some(value) => {
                let row = Record {
                    key: Key { numbers },
                    value,
                };
                store.put(&row, steps).is_ok()
            }
            None => false,
        },
        Ask::Remove(numbers) => store.remove(&Key { numbers }, steps).is_ok(),
        Ask::Root => {
            let _ = store.checkpoint(steps);
            true
        }
    }
}

/// A session over a disk: the disk behind it, where each update was answered.
fn run_session<L: Ledger>(
    alloc: Global,
    disk: Memory,
    asks: &[Ask],
    steps: &mut Steps<L>,
) -> Result<Option<Memory>, AllocError> {
    let disk = Box::new(alloc, disk)?;
    let Ok(mut store) = open_store::<ATTRIBUTES, Memory, L>(alloc, disk, steps) else {
        return Ok(None);
    };
    for ask in asks {
        if !is_answered(&mut store, *ask, steps) {
            return Ok(None);
        }
    }
    Ok(Some(Box::into_inner(store.close().0)))
}

/// The file behind both sessions, where each update was answered; that disk call of the second fails, and none where it is 0.
fn run_sessions<L: Ledger>(
    alloc: Global,
    geometry: Geometry,
    failing: u64,
    steps: &mut Steps<L>,
) -> Result<Option<Made>, AllocError> {
    let mut disk = Memory::new(alloc, geometry.shape.file_pages())?;
    if make(&mut disk, &geometry.shape).is_err() {
        return Ok(None);
    }
    let Some(mut disk) = run_session(alloc, disk, &FIRST, steps)? else {
        return Ok(None);
    };
    if failing != 0 {
        disk.fail(failing)?;
    }
    let Some(disk) = run_session(alloc, disk, &SECOND, steps)? else {
        return Ok(None);
    };
    let mut bytes = Vec::new(alloc);
    bytes.extend_from_slice(disk.bytes())?;
    Ok(Some(Made { geometry, bytes }))
}

/// The byte of a file at that place of a page.
fn byte_at(bytes: &[u8], page: u32, at: u16) -> u8 {
    match bytes.get(page as usize * PAGE_BYTES + at as usize) {
        Some(byte) => *byte,
        None => 0,
    }
}

/// Whether a header page is open.
fn is_rooted(made: &Made, header: u32) -> bool {
    byte_at(&made.bytes, header, 64) == 1
}

/// Whether the first slot of a half is open.
fn is_used(made: &Made, half: Half) -> bool {
    byte_at(&made.bytes, made.geometry.gate_page(half), 96) == 1
}

/// Whether it is a file of this kind.
fn is_of_kind(made: &Made, kind: Kind) -> bool {
    match kind {
        Kind::Unrooted => {
            is_used(made, Half::First)
                && is_used(made, Half::Second)
                && is_rooted(made, 0) != is_rooted(made, 1)
        }
        Kind::Settled => is_rooted(made, 0) && is_rooted(made, 1),
    }
}

/// The first file of that kind, with a call failing that comes later and later.
pub fn make_file<L: Ledger>(
    alloc: Global,
    kind: Kind,
    steps: &mut Steps<L>,
) -> Result<Option<Made>, AllocError> {
    let Some(geometry) = Geometry::new(SHAPE) else {
        return Ok(None);
    };
    for failing in 0..ALL_CALLS {
        if let Some(made) = run_sessions(alloc, geometry, failing, steps)? {
            if is_of_kind(&made, kind) {
                return Ok(Some(made));
            }
        }
    }
    Ok(None)
}
