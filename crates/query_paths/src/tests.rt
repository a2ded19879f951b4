ghost use Rattle.std.specs.Prelude.{◌≡◌, ◌<◌};

use super::*;
use crate::pages_in_memory::Pages;
use disk_trait::Steps;
use grid_types::{Data, Key, PAGE_BYTES, Query, Refusal, Rows, Side};
use std::alloc::{AllocError, Global};
use std::marker::Brand;
use std::sync::ledger::{Blank, Ledger};
use std::test::*;

const TOP: u64 = u64::MAX;

/// The pages after the puts 3,7 and 5,1 and 9,9 and 6,4 and 1,1 and 2,9: each cell has a bucket.
fn four(alloc: Global) -> Result<Option<Pages>, AllocError> {
    let Some(mut pages) = Pages::new(alloc, &[3, 0, 1, 2], 4)? else {
        return Ok(None);
    };
    pages.put(0, [0, 4], [4, TOP], &[([2, 9], 6), ([3, 7], 1)]);
    pages.put(1, [5, 0], [TOP, 3], &[([5, 1], 2)]);
    pages.put(2, [5, 4], [TOP, TOP], &[([6, 4], 4), ([9, 9], 3)]);
    pages.put(3, [0, 0], [4, 3], &[([1, 1], 5)]);
    Ok(Some(pages))
}

/// Pages in which two cells share the bucket 0, and two the bucket 1.
fn shared(alloc: Global) -> Result<Option<Pages>, AllocError> {
    let Some(mut pages) = Pages::new(alloc, &[0, 0, 1, 1], 2)? else {
        return Ok(None);
    };
    pages.put(0, [0, 0], [4, TOP], &[([1, 1], 5), ([3, 7], 1)]);
    pages.put(1, [5, 0], [TOP, TOP], &[([6, 4], 4), ([9, 9], 3)]);
    Ok(Some(pages))
}

/// Whether these are the rows, each a key and one byte.
fn are_rows(rows: &Rows<2>, expected: &[([u64; 2], u8)]) -> bool {
    if rows.list().len() != expected.len() {
        return false;
    }
    for (row, (numbers, byte)) in rows.list().iter().zip(expected) {
        if row.key.numbers != *numbers || row.value.bytes() != [*byte].as_slice() {
            return false;
        }
    }
    true
}

/// Whether a listing and a count of these sides answer the rows, with so many readings each.
fn answers<L: Ledger>(
    alloc: Global,
    pages: &mut Pages,
    sides: [Side; 2],
    expected: &[([u64; 2], u8)],
    reads: u32,
    steps: &mut Steps<L>,
) -> Result<bool, AllocError> {
    let query = Query { sides };
    if !query.lawful() {
        return Ok(false);
    }
    let mut room = Room::new(alloc, 4)?;
    pages.reads = 0;
    let Ok(rows) = list_rows(alloc, pages, &query, &mut room, steps) else {
        return Ok(false);
    };
    let listed = pages.reads;
    pages.reads = 0;
    let counted = count_rows(pages, &query, &mut room, steps);
    let right = are_rows(&rows, expected) && counted == Ok(expected.len() as u64);
    Ok(right && listed == reads && pages.reads == reads)
}

/// Whether a get, and a count of all rows, are refused as that page of the file is damaged.
fn refuse<L: Ledger>(
    alloc: Global,
    pages: &mut Pages,
    page: u32,
    steps: &mut Steps<L>,
) -> Result<bool, AllocError> {
    let query = Query {
        sides: [Side::Any, Side::Any],
    };
    let mut room = Room::new(alloc, 4)?;
    let key = Key { numbers: [6, 4] };
    let got = exact(pages, &key, &mut room.bucket, steps);
    let counted = count_rows(pages, &query, &mut room, steps);
    let refusal = Refusal::Damaged { page };
    Ok(got == Err(refusal) && counted == Err(refusal))
}

/// Whether the rows of each query are found where each cell has a bucket, and where cells share one.
fn find_rows<L: Ledger>(alloc: Global, blank: Blank) -> Result<Option<[bool; 4]>, AllocError>
    requires name { blank.name ≡ L.name }
    requires parts { blank.parts ≡ L.parts }
    requires some { 0 < L.parts }
{
    let mut steps = Steps::<L>::new(blank);
    let (Some(mut pages), Some(mut fewer)) = (four(alloc)?, shared(alloc)?) else {
        return Ok(None);
    };
    let few = [([3, 7], 1), ([5, 1], 2), ([6, 4], 4)];
    let sides = [Side::Between(3, 9), Side::Between(1, 7)];
    let in_both = answers(alloc, &mut pages, sides, &few, 5, &mut steps)?;
    let nines = [([2, 9], 6), ([9, 9], 3)];
    let sides = [Side::Any, Side::Exactly(9)];
    let in_one = answers(alloc, &mut pages, sides, &nines, 3, &mut steps)?;
    let all = [([1, 1], 5), ([3, 7], 1), ([6, 4], 4), ([9, 9], 3)];
    let sides = [Side::Any, Side::Any];
    let once = answers(alloc, &mut fewer, sides, &all, 3, &mut steps)?;
    let mut page = [0; PAGE_BYTES];
    pages.reads = 0;
    let got = exact(&mut pages, &Key { numbers: [6, 4] }, &mut page, &mut steps);
    let right = got == Ok(Data::new(&[4])) && pages.reads == 2;
    Ok(Some([in_both, in_one, once, right]))
}

/// Whether a bucket page with a changed byte is named, and then the directory page.
fn name_pages<L: Ledger>(alloc: Global, blank: Blank) -> Result<Option<[bool; 2]>, AllocError>
    requires name { blank.name ≡ L.name }
    requires parts { blank.parts ≡ L.parts }
    requires some { 0 < L.parts }
{
    let mut steps = Steps::<L>::new(blank);
    let Some(mut pages) = four(alloc)? else {
        return Ok(None);
    };
    pages.buckets[2][700] = 1;
    let bucket = refuse(alloc, &mut pages, 102, &mut steps)?;
    pages.directory[50] = 1;
    let part = refuse(alloc, &mut pages, 0, &mut steps)?;
    Ok(Some([bucket, part]))
}

#[test]
fn rows_are_found(rt: HostRuntime) -> Result<(), Fail> {
    let found = find_rows::<Brand>(rt.alloc(), Blank::new(1))?;
    assert_eq!(rt; found, Some([true; 4]));
    Ok(())
}

#[test]
fn damaged_pages_are_named(rt: HostRuntime) -> Result<(), Fail> {
    let named = name_pages::<Brand>(rt.alloc(), Blank::new(1))?;
    assert_eq!(rt; named, Some([true; 2]));
    Ok(())
}
