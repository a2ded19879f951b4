//! A new file, with one change each.
ghost use Rattle.std.specs.Prelude.{◌≡◌, ◌<◌, ◌≤◌, ◌+◌, ◌*◌, ◌%◌, IfOk, length};
ghost use Rattle.grid_types.specs.declared.sizes.TheConstants.{PAGE_BYTES};

use super::*;
use arrayvec::ArrayVec;
use disk_memory::Memory;
use disk_trait::Steps;
use grid_types::{
    Geometry, Half, Key, LayoutChange, LoggedUpdate, PAGE_BYTES, Refusal, Shape, Update,
};
use journal_slots::{Batch, encode, encode_gates};
use linear_scales::NOWHERE;
use root_pages::{
    RootHeader, encode_fields, encode_header, encode_list, encode_scale, encode_table,
};
use std::alloc::{AllocError, Global};
use std::marker::Brand;
use std::sync::ledger::{Blank, Ledger};
use std::test::*;

/// The pages of a file with 64 data pages and 8 slots: two header pages, two table areas of ten, the gate pages 22 and 31
/// with their slots behind them, and the data pages from 40 on.
const PAGES: usize = 104;

const SHAPE: Shape = Shape {
    k: 2,
    capacity: 3,
    pages: 64,
    slots: 8,
    boundaries: 1000,
    cells: 1_000_000,
};

/// Writes a page where the image has it.
fn put_page(image: &mut [u8], number: usize, page: &[u8; PAGE_BYTES]) {
    if number < image.len() / PAGE_BYTES {
        let at = number * PAGE_BYTES;
        image[at..at + PAGE_BYTES].copy_from_slice(page);
    }
}

/// Writes a byte where the image has it.
fn put_byte(image: &mut [u8], at: usize, byte: u8) {
    if at < image.len() {
        image[at] = byte;
    }
}

/// Writes both header pages; the first is open over root 0.
fn put_headers(image: &mut [u8], geometry: &Geometry) {
    let mut page = [0; PAGE_BYTES];
    encode_header(geometry, &mut page);
    put_page(image, 1, &page);
    let mut boundaries = ArrayVec::new();
    boundaries.push(0);
    boundaries.push(0);
    let root = RootHeader {
        number: 0,
        session: 0,
        front: 0,
        records: 0,
        boundaries,
        parts: 1,
        buckets: 1,
    };
    let mut fields = [0; 56];
    encode_fields(&root, &mut fields);
    page[64] = 1;
    page[72..128].copy_from_slice(&fields);
    put_page(image, 0, &page);
}

/// Writes the table area of root 0: no boundaries, a directory part on data page 0 and a bucket on data page 1.
fn put_area(image: &mut [u8]) {
    let mut page = [0; PAGE_BYTES];
    for i in 0..8 {
        encode_scale(0, i, &[], &mut page);
        put_page(image, 2 + i as usize, &page);
    }
    encode_list(0, 8, &[0], &mut page);
    put_page(image, 10, &page);
    let mut table = [NOWHERE; 64];
    table[0] = 1;
    encode_table(0, 9, &table, &mut page);
    put_page(image, 11, &page);
}

/// The first pages of a new file, as many as are asked for.
fn new_file(alloc: Global, pages: usize) -> Result<Vec<u8>, AllocError>
    requires { pages ≤ 104 }
    ensures { IfOk result (λ v. length v.items % PAGE_BYTES ≡ 0) }
{
    let mut image = vec![in alloc; 0; pages * PAGE_BYTES]?;
    let Some(geometry) = Geometry::new(SHAPE) else {
        return Ok(image);
    };
    put_headers(&mut image, &geometry);
    put_area(&mut image);
    let mut page = [0; PAGE_BYTES];
    encode_gates(Half::First, &[0; 8], &mut page);
    put_page(&mut image, 22, &page);
    encode_gates(Half::Second, &[0; 8], &mut page);
    put_page(&mut image, 31, &page);
    Ok(image)
}

/// Writes a batch of one update on a slot's page, and opens its gate.
fn put_batch(image: &mut [u8], slot_page: usize, gate: usize, session: u64, first: u64) {
    let mut updates = ArrayVec::new();
    updates.push(LoggedUpdate {
        update: Update::Remove(Key {
            numbers: [first, 7],
        }),
        note: LayoutChange::Plain,
    });
    let batch = Batch::<2> {
        session,
        first,
        updates,
    };
    let mut page = [0; PAGE_BYTES];
    encode(&batch, &mut page);
    put_page(image, slot_page, &page);
    put_byte(image, gate, 1);
}

/// What a survey says.
#[derive(Clone, Copy, PartialEq, Eq)]
enum Told {
    Refused(Refusal),
    Found { front: u64, taken: usize, used: u32 },
}

fn surveyed<L: Ledger>(
    alloc: Global,
    image: Vec<u8>,
    steps: &mut Steps<L>,
) -> Result<Told, AllocError>
    requires { length image.items % PAGE_BYTES ≡ 0 }
{
    let mut disk = Memory::of(alloc, image)?;
    match survey_file::<2, Memory, L>(alloc, &mut disk, steps) {
        Ok(survey) => Ok(Told::Found {
            front: survey.front,
            taken: survey.taken.list().len(),
            used: survey.used[0],
        }),
        Err(why) => Ok(Told::Refused(why)),
    }
}

/// What a survey says of a new file with one byte changed.
fn changed<L: Ledger>(
    alloc: Global,
    at: usize,
    byte: u8,
    steps: &mut Steps<L>,
) -> Result<Told, AllocError> {
    let mut image = new_file(alloc, PAGES)?;
    put_byte(&mut image, at, byte);
    surveyed(alloc, image, steps)
}

/// The byte of a page, counted from the start of the file.
const fn byte_of(page: usize, offset: usize) -> usize
    requires page { page ≤ 104 }
    requires offset { offset ≤ 4096 }
    ensures { result ≡ page * PAGE_BYTES + offset }
{
    page * PAGE_BYTES + offset
}

/// A byte that is another, and why the file is refused then.
fn changes() -> [(usize, u8, Refusal); 8] {
    [
        (byte_of(0, 0), b'X', Refusal::Foreign),
        (byte_of(0, 9), 9, Refusal::Version { found: 9 }),
        (byte_of(0, 63), 1, Refusal::Damaged { page: 0 }),
        (byte_of(1, 20), 1, Refusal::Damaged { page: 1 }),
        (byte_of(0, 64), 0, Refusal::Damaged { page: 0 }),
        (byte_of(2, 0), 0, Refusal::Damaged { page: 2 }),
        (byte_of(22, 0), 0, Refusal::Damaged { page: 22 }),
        (byte_of(31, 96), 1, Refusal::Damaged { page: 32 }),
    ]
}

/// Whether a new file with each of these bytes changed is refused so.
fn names_changes<L: Ledger>(alloc: Global, steps: &mut Steps<L>) -> Result<bool, AllocError> {
    let mut all = true;
    for (at, byte, why) in changes() {
        all &= changed(alloc, at, byte, steps)? == Told::Refused(why);
    }
    Ok(all)
}

/// Whether a new file that is cut off is foreign below two pages, and else damaged at the first page that is not there.
fn names_cuts<L: Ledger>(alloc: Global, steps: &mut Steps<L>) -> Result<bool, AllocError> {
    let one = surveyed(alloc, new_file(alloc, 1)?, steps)?;
    let mut all = one == Told::Refused(Refusal::Foreign);
    for pages in 2..PAGES {
        let why = Refusal::Damaged { page: pages as u32 };
        all &= surveyed(alloc, new_file(alloc, pages)?, steps)? == Told::Refused(why);
    }
    let zeros = vec![in alloc; 0; PAGES * PAGE_BYTES]?;
    Ok(all & (surveyed(alloc, zeros, steps)? == Told::Refused(Refusal::Foreign)))
}

/// What a survey says of a new file with up to three batches of one update on slots: the half and slot of each as its page and
/// its gate, the session, and the place.
fn with_batches<L: Ledger>(
    alloc: Global,
    batches: [(usize, usize, u64, u64); 3],
    steps: &mut Steps<L>,
) -> Result<Told, AllocError> {
    let mut image = new_file(alloc, PAGES)?;
    for (page, gate, session, first) in batches {
        put_batch(&mut image, page, gate, session, first);
    }
    surveyed(alloc, image, steps)
}

/// Slots 0 and 1 of half 0, and slot 0 of half 1, by their pages and their gates.
const SLOTS: [(usize, usize); 3] = [(23, 90208), (24, 90209), (32, 127072)];

/// Whether batches are taken up to a gap, in the order of their places, and those of another session are not.
fn takes_what_joins<L: Ledger>(alloc: Global, steps: &mut Steps<L>) -> Result<bool, AllocError> {
    let [a, b, c] = SLOTS;
    let gap = [(a.0, a.1, 0, 3), (b.0, b.1, 1, 2), (c.0, c.1, 0, 1)];
    let whole = [(a.0, a.1, 0, 3), (b.0, b.1, 0, 2), (c.0, c.1, 0, 1)];
    let none = surveyed(alloc, new_file(alloc, PAGES)?, steps)?;
    let one = with_batches(alloc, gap, steps)?;
    let three = with_batches(alloc, whole, steps)?;
    Ok(none == found(0, 0, 0) && one == found(1, 1, 2) && three == found(3, 3, 2))
}

fn found(front: u64, taken: usize, used: u32) -> Told {
    Told::Found { front, taken, used }
}

/// Whether each of the fourteen reads of a new file that fails is a fault of reading, and another number of attributes is told.
fn tells_others<L: Ledger>(alloc: Global, steps: &mut Steps<L>) -> Result<bool, AllocError> {
    let mut all = true;
    for call in 1..16 {
        let mut disk = Memory::of(alloc, new_file(alloc, PAGES)?)?;
        disk.fail(call)?;
        let read = survey_file::<2, Memory, L>(alloc, &mut disk, steps);
        all &= matches!(read, Err(Refusal::ReadFault)) == (call < 15);
    }
    let mut disk = Memory::of(alloc, new_file(alloc, PAGES)?)?;
    let read = survey_file::<1, Memory, L>(alloc, &mut disk, steps);
    Ok(all & matches!(read, Err(Refusal::Arity { found: 2 })))
}

fn try_all<L: Ledger>(alloc: Global, blank: Blank) -> Result<[bool; 4], AllocError>
    requires name { blank.name ≡ L.name }
    requires parts { blank.parts ≡ L.parts }
    requires some { 0 < L.parts }
{
    let mut steps = Steps::<L>::new(blank);
    let changes = names_changes(alloc, &mut steps)?;
    let cuts = names_cuts(alloc, &mut steps)?;
    let joins = takes_what_joins(alloc, &mut steps)?;
    let others = tells_others(alloc, &mut steps)?;
    Ok([changes, cuts, joins, others])
}

#[test]
fn files_are_surveyed(rt: HostRuntime) -> Result<(), Fail> {
    survey_law::<2>();
    let [changes, cuts, joins, others] = try_all::<Brand>(rt.alloc(), Blank::new(1))?;
    assert!(rt; changes);
    assert!(rt; cuts);
    assert!(rt; joins);
    assert!(rt; others);
    Ok(())
}
