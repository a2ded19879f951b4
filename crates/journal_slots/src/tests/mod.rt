//! Worked pages of the journal, scans, and runs that are cut off.
ghost use Rattle.std.specs.Prelude.{◌≡◌, ◌<◌, ◌≤◌, ◌*◌, IsTrue, IfSome, IfOk};
ghost use Rattle.grid_types.specs.Shapes.{file_pages};
ghost use Rattle.disk_memory.specs.Memories.{extent_of};

mod crashes;
mod pages;
mod scans;

use super::*;
use arrayvec::ArrayVec;
use disk_memory::Memory;
use disk_trait::{Disk, Steps};
use grid_types::{
    Cut, Data, Geometry, Half, Key, LayoutChange, LoggedUpdate, Record, Refusal, Shape, Update,
};
use std::alloc::{AllocError, Global};
use std::marker::Brand;
use std::sync::ledger::{Blank, Ledger};

fn put(at: [u64; 2], bytes: &[u8], note: LayoutChange) -> Option<LoggedUpdate<2>> {
    let value = Data::new(bytes)?;
    let key = Key { numbers: at };
    Some(LoggedUpdate {
        update: Update::Put(Record { key, value }),
        note,
    })
}

fn remove(at: [u64; 2], note: LayoutChange) -> LoggedUpdate<2> {
    LoggedUpdate {
        update: Update::Remove(Key { numbers: at }),
        note,
    }
}

fn cut(fresh: bool) -> LayoutChange {
    LayoutChange::Cut {
        cut: Cut {
            attribute: 1,
            value: 258,
            fresh,
        },
        right: 772,
    }
}

/// A batch with an update of each kind and note, at that place.
fn of_each_kind(session: u64, first: u64) -> Option<Batch<2>> {
    let mut updates = ArrayVec::new();
    updates.push(put([3, 7], b"hi", LayoutChange::Plain)?);
    updates.push(put([1, u64::MAX], b"", cut(false))?);
    updates.push(put([0, 5], &[255; 40], cut(true))?);
    updates.push(remove([4, 4], LayoutChange::Plain));
    updates.push(remove([6, 9], LayoutChange::Merge { with: 1543 }));
    Some(Batch {
        session,
        first,
        updates,
    })
}

/// Whether this is that batch: it has the same page.
fn is_of_each_kind(batch: &Batch<2>, session: u64, first: u64) -> bool {
    let Some(wanted) = of_each_kind(session, first) else {
        return false;
    };
    let mut page = [0; 4096];
    encode(&wanted, &mut page);
    let mut again = [9; 4096];
    encode(batch, &mut again);
    again == page
}

/// The geometry of a file with 8 data pages and 4 slots.
fn small() -> Option<Geometry>
    ensures { IfSome result (λ l. l.shape.slots ≡ 4) }
{
    let shape = Shape {
        k: 2,
        capacity: 2,
        pages: 8,
        slots: 4,
        boundaries: 1000,
        cells: 1_000_000,
    };
    Geometry::new(shape)
}

/// Writes the gate page of the second half with closed gates.
fn close_all(disk: &mut Memory, geometry: &Geometry) -> bool
    requires size { file_pages geometry.now.shape * 4096 ≤ extent_of disk.old }
    ensures { extent_of disk.new ≡ extent_of disk.old }
{
    let mut page = [9; 4096];
    encode_gates(Half::Second, &[0; 4], &mut page);
    let at = geometry.gate_page(Half::Second) as u64 * 4096;
    disk.write(at, &page).is_ok()
}

/// A file whose gates are closed.
fn closed(alloc: Global, geometry: &Geometry) -> Result<Memory, AllocError>
    ensures size { IfOk result (λ m. extent_of m ≡ file_pages geometry.now.shape * 4096) }
{
    let mut disk = Memory::new(alloc, geometry.shape.file_pages())?;
    let _ = close_all(&mut disk, geometry);
    let _ = disk.sync();
    Ok(disk)
}

/// Writes the gate of a slot of the second half.
fn put_gate(disk: &mut Memory, geometry: &Geometry, slot: u32, gate: u8) -> bool
    requires size { file_pages geometry.now.shape * 4096 ≤ extent_of disk.old }
    requires few { slot < 4 }
    ensures { extent_of disk.new ≡ extent_of disk.old }
{
    let at = geometry.gate_page(Half::Second) as u64 * 4096 + 96 + slot as u64;
    disk.write(at, &[gate]).is_ok()
}

/// Commits that batch on a slot of the second half.
fn commit<D: Disk>(disk: &mut D, geometry: &Geometry, slot: u32, session: u64, first: u64) -> bool
    requires size { file_pages geometry.now.shape * 4096 ≤ D.extent disk.old }
    requires inside { slot < geometry.now.shape.slots }
    ensures { D.extent disk.new ≡ D.extent disk.old }
{
    let Some(batch) = of_each_kind(session, first) else {
        return false;
    };
    let mut page = [0; 4096];
    encode(&batch, &mut page);
    match decode::<2>(&page) {
        Some(batch) => commit_batch(disk, geometry, Half::Second, slot, &batch).is_ok(),
        None => false,
    }
}

fn scan_with<L: Ledger>(
    alloc: Global,
    disk: &mut Memory,
    geometry: &Geometry,
    session: u64,
    blank: Blank,
) -> Result<Scan<2>, Refusal>
    requires size { file_pages geometry.now.shape * 4096 ≤ extent_of disk.old }
    requires name { blank.name ≡ L.name }
    requires parts { blank.parts ≡ L.parts }
    requires some { 0 < L.parts }
    ensures { extent_of disk.new ≡ extent_of disk.old }
{
    let mut steps = Steps::<L>::new(blank);
    scan_half(alloc, disk, geometry, Half::Second, session, &mut steps)
}

/// A scan of the second half for a session.
fn scan(
    alloc: Global,
    disk: &mut Memory,
    geometry: &Geometry,
    session: u64,
) -> Result<Scan<2>, Refusal>
    requires size { file_pages geometry.now.shape * 4096 ≤ extent_of disk.old }
    ensures { extent_of disk.new ≡ extent_of disk.old }
{
    scan_with::<Brand>(alloc, disk, geometry, session, Blank::new(1))
}

/// Whether a scan finds so many batches, and so many slots in use.
fn finds(found: Result<Scan<2>, Refusal>, batches: usize, used: u32) -> bool {
    match found {
        Ok(scan) => scan.batches.list().len() == batches && scan.used == used,
        Err(_) => false,
    }
}

/// Whether a scan names that page as damaged.
fn is_damaged(found: Result<Scan<2>, Refusal>, damaged: u32) -> bool {
    match found {
        Ok(_) => false,
        Err(why) => why == Refusal::Damaged { page: damaged },
    }
}
