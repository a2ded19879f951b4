//! A script, what is found behind its updates, and files that are opened for it.
use super::asking::{Ask, asked, new_file, shape_of, told};
use crate::{Store, open_store};
use disk_memory::{Fused, Keep, Memory};
use disk_trait::{Disk, Steps};
use grid_types::{Key, PAGE_BYTES, Refusal};
use std::alloc::{AllocError, Global};
use std::sync::ledger::Ledger;

/// Batches in both halves: a cut before the root step, and a merge behind it.
pub const SCRIPT: [Ask; 7] = [
    Ask::Put(3, 7, 1),
    Ask::Put(5, 1, 2),
    Ask::Put(9, 9, 3),
    Ask::Root,
    Ask::Put(9, 9, 4),
    Ask::Remove(3, 7),
    Ask::Remove(9, 9),
];

/// The place of the last update of the script.
pub const LAST: u64 = 6;

/// The keys of the script.
pub const KEYS: [[u64; 2]; 3] = [[3, 7], [5, 1], [9, 9]];

/// The byte of each key.
pub type Table = [Option<u8>; 3];

/// A place, and the table there.
pub type Found = (u64, Table);

/// From now on the key has this byte, or none.
fn set_byte(table: &mut Table, numbers: [u64; 2], byte: Option<u8>) {
    for (slot, key) in table.iter_mut().zip(KEYS) {
        if key == numbers {
            *slot = byte;
        }
    }
}

/// The plain table behind so many updates of the script.
pub fn plain_table(front: u64) -> Table {
    let mut table = [None; 3];
    let mut place: u64 = 0;
    for ask in SCRIPT {
        if place >= front {
            return table;
        }
        match ask {
            Ask::Put(x, y, byte) => {
                set_byte(&mut table, [x, y], Some(byte));
                place += 1;
            }
            Ask::Remove(x, y) => {
                set_byte(&mut table, [x, y], None);
                place += 1;
            }
            Ask::Root => {}
        }
    }
    table
}

/// The place of the store, and what its gets answer there.
pub fn found_in<D: Disk, L: Ledger>(
    store: &mut Store<2, D>,
    steps: &mut Steps<L>,
) -> Result<Found, Refusal> {
    let mut table = [None; 3];
    for (slot, numbers) in table.iter_mut().zip(KEYS) {
        (_, *slot) = told(store.get(&Key { numbers }, steps))?;
    }
    Ok((store.front(), table))
}

/// Whether a store is where an update that was answered at this place, or the next one, led.
pub fn is_right(answered: u64, found: Option<Found>) -> bool {
    match found {
        Some(found) => {
            let front = found.0;
            let plain = plain_table(front);
            answered <= front && front - answered <= 1 && found == (front, plain)
        }
        None => false,
    }
}

/// The last place that is answered in a run of the script.
pub fn run_script<D: Disk, L: Ledger>(store: &mut Store<2, D>, steps: &mut Steps<L>) -> u64 {
    let mut answered = 0;
    for ask in SCRIPT {
        match asked(store, ask, steps) {
            Ok((place, _)) => answered = place,
            Err(_) => return answered,
        }
    }
    answered
}

/// Opens the file of a disk that stops behind so many calls, and runs the script on it where it is to: the last answered
/// place, what is found in the store where it was opened, and the disk that a crash leaves.
pub fn opened_until<L: Ledger>(
    alloc: Global,
    disk: Memory,
    calls: u64,
    keep: Keep,
    runs: bool,
    steps: &mut Steps<L>,
) -> Result<(u64, Option<Found>, Memory), AllocError> {
    let mut answered = 0;
    let mut found = None;
    let disk = Box::new(alloc, Fused::new(disk, calls))?;
    let disk = match open_store::<2, Fused, L>(alloc, disk, steps) {
        Ok(mut store) => {
            if runs {
                answered = run_script(&mut store, steps);
            } else {
                found = found_in(&mut store, steps).ok();
            }
            store.close().0
        }
        Err(unopened) => unopened.disk,
    };
    Ok((answered, found, Box::into_inner(disk).image(keep)?))
}

/// The same disk again.
pub fn copy_of(alloc: Global, disk: &Memory) -> Result<Memory, AllocError> {
    let mut bytes = Vec::new(alloc);
    bytes.extend_from_slice(disk.bytes())?;
    if bytes.len() % PAGE_BYTES == 0 {
        Memory::of(alloc, bytes)
    } else {
        Err(AllocError)
    }
}

/// A new file for the script, which has 48 pages.
pub fn script_file(alloc: Global) -> Result<Memory, AllocError> {
    new_file(alloc, 48, &shape_of(8, 8, 600))
}

/// More calls than any run makes.
pub const ALL_CALLS: u64 = 1000;

/// What is found in a file that is opened with no stop.
pub fn found_on<L: Ledger>(
    alloc: Global,
    image: Memory,
    steps: &mut Steps<L>,
) -> Result<Option<Found>, AllocError> {
    let (_, found, _) = opened_until(alloc, image, ALL_CALLS, Keep::All, false, steps)?;
    Ok(found)
}
