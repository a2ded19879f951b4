ghost use Rattle.std.specs.Prelude.{◌≡◌, ◌<◌};

use super::making::fits;
use super::*;
use disk_memory::Memory;
use disk_trait::{Disk, Steps, write_page};
use file_roots::read_newest;
use grid_types::{Geometry, PAGE_BYTES, Refusal, Shape};
use std::alloc::{AllocError, Global};
use std::marker::Brand;
use std::sync::ledger::{Blank, Ledger};
use std::test::*;

/// How many cases there are.
const CASES: usize = 12;

/// What is made, on a disk of how many pages, which of its calls fails, and what is answered.
#[derive(Clone, Copy)]
struct Case {
    k: u8,
    pages: u32,
    slots: u32,
    disk: u64,
    fails: u64,
    /// The last byte of the disk afterwards.
    last: u8,
    answer: Result<(), Refusal>,
}

/// A case, by its fields in their order.
fn made_of(
    k: u8,
    pages: u32,
    slots: u32,
    disk: u64,
    fails: u64,
    last: u8,
    answer: Result<(), Refusal>,
) -> Case {
    Case {
        k,
        pages,
        slots,
        disk,
        fails,
        last,
        answer,
    }
}

/// A file of 8 data pages and one slot in each half has 34 pages, and is made by 35 calls; one of 1,100 and two has 1,130.
fn cases() -> [Case; CASES] {
    [
        made_of(1, 8, 1, 34, 0, 0, Ok(())),
        made_of(4, 8, 1, 34, 0, 0, Ok(())),
        made_of(4, 1100, 2, 1130, 0, 0, Ok(())),
        made_of(2, 8, 1, 36, 0, 7, Ok(())),
        made_of(1, 7, 1, 34, 0, 7, Err(Refusal::BadShape)),
        made_of(5, 8, 1, 34, 0, 7, Err(Refusal::BadShape)),
        made_of(3, 8, 0, 34, 0, 7, Err(Refusal::BadShape)),
        made_of(1, 8, 1, 33, 0, 7, Err(Refusal::BadShape)),
        made_of(1, 8, 1, 34, 1, 7, Err(Refusal::WriteFault)),
        made_of(3, 8, 1, 34, 34, 7, Err(Refusal::WriteFault)),
        made_of(3, 8, 1, 34, 35, 0, Err(Refusal::WriteFault)),
        made_of(3, 8, 1, 34, 36, 0, Ok(())),
    ]
}

/// Whether the newest root of a file of K attributes is read, and is that of a new file.
fn reads_new<const K: usize, L: Ledger>(
    alloc: Global,
    disk: &mut Memory,
    geometry: &Geometry,
    steps: &mut Steps<L>,
) -> bool {
    if geometry.shape.k as usize != K {
        return false;
    }
    if !fits(geometry, disk.size()) {
        return false;
    }
    match read_newest::<K, Memory, L>(alloc, disk, geometry, steps) {
        Ok(root) => (root.front == 0) & (root.number == 0) & (root.records == 0),
        Err(_) => false,
    }
}

/// Whether both header pages have the file's name, the gate of page 0 is 1 and that of page 1 is 0, and the newest root is
/// that of a new file.
fn is_new<L: Ledger>(alloc: Global, disk: &mut Memory, shape: Shape, steps: &mut Steps<L>) -> bool {
    let Some(geometry) = Geometry::new(shape) else {
        return false;
    };
    let bytes = disk.bytes();
    if bytes.len() < 2 * PAGE_BYTES {
        return false;
    }
    let second = &bytes[PAGE_BYTES..];
    let named = bytes.starts_with(b"GRIDFILE") & second.starts_with(b"GRIDFILE");
    let gates = (bytes[64] == 1) & (second[64] == 0);
    let read = match shape.k {
        1 => reads_new::<1, L>(alloc, disk, &geometry, steps),
        2 => reads_new::<2, L>(alloc, disk, &geometry, steps),
        3 => reads_new::<3, L>(alloc, disk, &geometry, steps),
        _ => reads_new::<4, L>(alloc, disk, &geometry, steps),
    };
    named & gates & read
}

/// Whether a case is answered as it says, over a disk that has 7 in each byte before. What is refused is left as it was,
/// and so is what lies behind the file.
fn holds<L: Ledger>(alloc: Global, case: Case, steps: &mut Steps<L>) -> Result<bool, AllocError> {
    let shape = Shape {
        k: case.k,
        capacity: 2,
        pages: case.pages,
        slots: case.slots,
        boundaries: 600,
        cells: 1000,
    };
    let mut disk = Memory::new(alloc, case.disk)?;
    let page = [7; PAGE_BYTES];
    for i in 0..case.disk {
        if write_page(&mut disk, i, &page).is_err() {
            return Ok(false);
        }
    }
    if case.fails != 0 {
        disk.fail(case.fails)?;
    }
    let answer = make(&mut disk, &shape);
    let last = disk.bytes().last() == Some(&case.last);
    let whole = match answer {
        Ok(()) => case.fails != 0 || is_new(alloc, &mut disk, shape, steps),
        Err(Refusal::BadShape) => disk.bytes().iter().all(|b| *b == 7),
        Err(_) => true,
    };
    Ok(last & whole & (answer == case.answer))
}

fn try_all<L: Ledger>(alloc: Global, blank: Blank) -> Result<usize, AllocError>
    requires name { blank.name ≡ L.name }
    requires parts { blank.parts ≡ L.parts }
    requires some { 0 < L.parts }
{
    let mut steps = Steps::<L>::new(blank);
    let cases = cases();
    for i in 0..CASES {
        if !holds(alloc, cases[i], &mut steps)? {
            return Ok(i);
        }
    }
    Ok(CASES)
}

#[test]
fn files_are_made(rt: HostRuntime) -> Result<(), Fail> {
    let first_bad = try_all::<Brand>(rt.alloc(), Blank::new(1))?;
    assert_eq!(rt; first_bad, CASES);
    Ok(())
}
