//! Changes of directories, compared cell by cell with a plain computation.
ghost use Rattle.std.specs.Prelude.{◌≡◌, ◌<◌, ◌≤◌, length, IfOk};
ghost use Rattle.grid_types.specs.Shapes.{word_pages};
ghost use Rattle.grid_model.specs.Lists.{product};
ghost use Rattle.directory_changes.specs.Changes.{IsChangeOf};

use crate::tests::list_pages::ListPages;
use crate::{NewBucket, PartRoom, write_change};
use directory_changes::{DirectoryChange, count_changed_parts};
use directory_pages::{bucket_at, encode, is_directory_page};
use disk_trait::Steps;
use grid_cells::Dims;
use grid_types::{CellBox, Owner, PAGE_BYTES, Refusal};
use std::alloc::{AllocError, Global};
use std::marker::Brand;
use std::sync::ledger::{Blank, Ledger};
use std::test::*;

/// The bucket of the cell of this index before the change.
fn old_bucket(at: u32) -> u32 {
    at % 700 + 3
}

/// The page of an old part.
fn old_page(part: u32, count: usize) -> [u8; PAGE_BYTES]
    requires some { 1 ≤ count }
    requires few { count ≤ 1000 }
{
    let mut cells = [0; 1000];
    for k in 0..1000 {
        cells[k] = old_bucket(part.wrapping_mul(1000).wrapping_add(k as u32));
    }
    let mut page = [0; PAGE_BYTES];
    encode(part, &cells[..count], &mut page);
    page
}

/// The pages of a directory, on which so many calls are made before each fails.
fn pages_of<const K: usize>(
    alloc: Global,
    dims: &Dims<K>,
    calls: u32,
) -> Result<ListPages, AllocError>
    ensures parts { IfOk result
        (λ p. length p.before.items ≡ word_pages (product dims.now.intervals)) }
    ensures room { IfOk result (λ p. p.room ≡ 2000) }
{
    let mut before = Vec::new(alloc);
    for part in 0..dims.cells().div_ceil(1000) {
        let count = (dims.cells() - 1000 * part).min(1000);
        before.push(old_page(part, count as usize))?;
    }
    Ok(ListPages {
        before,
        written: Vec::new(alloc),
        room: 2000,
        reads: 0,
        calls_left: calls,
        read_faults: 0,
        write_faults: 0,
    })
}

/// The index of a cell, attribute by attribute.
fn plain_index<const K: usize>(intervals: &[u32; K], cell: &[u32; K]) -> u32 {
    let mut at: u32 = 0;
    for a in 0..K {
        at = at.wrapping_mul(intervals[a]).wrapping_add(cell[a]);
    }
    at
}

/// Whether the cell lies in the box.
fn lies_in<const K: usize>(cells: &CellBox<K>, cell: &[u32; K]) -> bool {
    for a in 0..K {
        if cell[a] < cells.lo[a] || cells.hi[a] < cell[a] {
            return false;
        }
    }
    true
}

/// The cell that was this one before the interval of the attribute was split.
fn plain_image<const K: usize>(cell: &[u32; K], attribute: u8, interval: u32) -> [u32; K] {
    let mut image = *cell;
    for a in 0..K {
        if a == attribute as usize && interval < cell[a] {
            image[a] = cell[a] - 1;
        }
    }
    image
}

/// The bucket of a cell after the change.
fn new_bucket<const K: usize>(
    intervals: &[u32; K],
    change: &DirectoryChange<K>,
    cell: &[u32; K],
) -> u32 {
    match change {
        DirectoryChange::Nothing => old_bucket(plain_index(intervals, cell)),
        DirectoryChange::Patch { cells, bucket } => {
            if lies_in(cells, cell) {
                return *bucket;
            }
            old_bucket(plain_index(intervals, cell))
        }
        DirectoryChange::Grow {
            attribute,
            interval,
            cells,
            bucket,
        } => {
            if lies_in(cells, cell) {
                return *bucket;
            }
            old_bucket(plain_index(intervals, &plain_image(cell, *attribute, *interval)))
        }
    }
}

/// Whether the page is that part of the directory after the change.
fn is_part<const K: usize>(
    page: &[u8; PAGE_BYTES],
    part: u32,
    old: &Dims<K>,
    new: &Dims<K>,
    change: &DirectoryChange<K>,
) -> bool {
    if 1000 <= part || new.cells() <= 1000 * part {
        return false;
    }
    let count = (new.cells() - 1000 * part).min(1000);
    for k in 0..count {
        let cell = new.cell(1000 * part + k);
        if bucket_at(page, k) != new_bucket(&old.intervals, change, &cell) {
            return false;
        }
    }
    is_directory_page(page, part, count)
}

/// Whether the bucket's page was written first, and then each part that the change renews.
fn is_changed<const K: usize>(
    pages: &ListPages,
    old: &Dims<K>,
    new: &Dims<K>,
    change: &DirectoryChange<K>,
) -> bool {
    let mut count: usize = 0;
    for written in &pages.written {
        let is_right = match written.owner {
            Owner::Bucket(number) => count == 0 && number == 5 && written.page[7] == 9,
            Owner::Part(part) => count != 0 && is_part(&written.page, part, old, new, change),
        };
        if !is_right {
            return false;
        }
        count = count.wrapping_add(1);
    }
    true
}

/// Writes a change with the page of one bucket.
fn change_with<const K: usize, L: Ledger>(
    pages: &mut ListPages,
    dims: &Dims<K>,
    change: &DirectoryChange<K>,
    room: &mut PartRoom,
    steps: &mut Steps<L>,
) -> Result<(), Refusal>
    requires change { IsChangeOf dims.now.intervals change.now }
    requires parts { length pages.old.before.items ≡ word_pages (product dims.now.intervals) }
    requires room { 1001 ≤ pages.old.room }
{
    let _count = count_changed_parts(dims, change);
    let page = [9; PAGE_BYTES];
    let bucket = NewBucket {
        number: 5,
        page: &page,
    };
    write_change(pages, &[bucket], dims, change, room, steps)
}

/// Whether this comes of a change: its outcome, how many parts are read, and how many pages are written, all of them right.
fn comes<const K: usize, L: Ledger>(
    alloc: Global,
    case: (&Dims<K>, &Dims<K>, &DirectoryChange<K>, u32),
    expected: (Result<(), Refusal>, u32, usize),
    steps: &mut Steps<L>,
) -> Result<bool, Fail>
    requires change { IsChangeOf case.0.now.intervals case.2.now }
{
    let (old, new, change, calls) = case;
    let mut pages = pages_of(alloc, old, calls)?;
    let mut room = PartRoom {
        old_page: [0; PAGE_BYTES],
        page: [0; PAGE_BYTES],
    };
    let told = change_with(&mut pages, old, change, &mut room, steps);
    let is_right = is_changed(&pages, old, new, change);
    Ok(is_right && (told, pages.reads, pages.written.len()) == expected)
}

/// Whether directories of one and two attributes grow.
#[tactic(auto, using(grid_cells::proofs::Literals::literal))]
fn they_grow<L: Ledger>(alloc: Global, blank: Blank) -> Result<bool, Fail>
    requires name { blank.name ≡ L.name }
    requires shares { blank.parts ≡ L.parts }
    requires some { 0 < L.parts }
{
    let mut steps = Steps::<L>::new(blank);
    let (attribute, interval, bucket) = (0, 1500, 70000);
    let intervals = [3000];
    let old = Dims { intervals };
    let intervals = [3001];
    let new = Dims { intervals };
    let (lo, hi) = ([1501], [1507]);
    let cells = CellBox { lo, hi };
    let change = DirectoryChange::Grow {
        attribute,
        interval,
        cells,
        bucket,
    };
    let line = comes(alloc, (&old, &new, &change, 9), (Ok(()), 3, 5), &mut steps)?;
    let (attribute, interval) = (1, 7);
    let intervals = [50, 60];
    let old = Dims { intervals };
    let intervals = [50, 61];
    let new = Dims { intervals };
    let (lo, hi) = ([20, 8], [30, 60]);
    let cells = CellBox { lo, hi };
    let change = DirectoryChange::Grow {
        attribute,
        interval,
        cells,
        bucket,
    };
    let plane = comes(alloc, (&old, &new, &change, 9), (Ok(()), 3, 5), &mut steps)?;
    Ok(line && plane)
}

/// Whether directories of three attributes grow, one of them with slices that are longer than a page.
#[tactic(auto, using(grid_cells::proofs::Literals::literal))]
fn they_grow_in_space<L: Ledger>(alloc: Global, blank: Blank) -> Result<bool, Fail>
    requires name { blank.name ≡ L.name }
    requires shares { blank.parts ≡ L.parts }
    requires some { 0 < L.parts }
{
    let mut steps = Steps::<L>::new(blank);
    let (attribute, interval, bucket) = (0, 0, 70000);
    let intervals = [3, 10, 100];
    let old = Dims { intervals };
    let intervals = [4, 10, 100];
    let new = Dims { intervals };
    let (lo, hi) = ([1, 2, 10], [1, 7, 50]);
    let cells = CellBox { lo, hi };
    let change = DirectoryChange::Grow {
        attribute,
        interval,
        cells,
        bucket,
    };
    let space = comes(alloc, (&old, &new, &change, 9), (Ok(()), 3, 5), &mut steps)?;
    let (attribute, interval) = (1, 0);
    let intervals = [3, 1, 1750];
    let old = Dims { intervals };
    let intervals = [3, 2, 1750];
    let new = Dims { intervals };
    let (lo, hi) = ([0, 1, 10], [2, 1, 50]);
    let cells = CellBox { lo, hi };
    let change = DirectoryChange::Grow {
        attribute,
        interval,
        cells,
        bucket,
    };
    let long = comes(
        alloc,
        (&old, &new, &change, 30),
        (Ok(()), 18, 12),
        &mut steps,
    )?;
    Ok(space && long)
}

/// Whether boxes that lie on several parts are patched, and each call that fails is told.
#[tactic(auto, using(grid_cells::proofs::Literals::literal))]
fn they_are_patched<L: Ledger>(alloc: Global, blank: Blank) -> Result<bool, Fail>
    requires name { blank.name ≡ L.name }
    requires shares { blank.parts ≡ L.parts }
    requires some { 0 < L.parts }
{
    let mut steps = Steps::<L>::new(blank);
    let intervals = [50, 50];
    let plane = Dims { intervals };
    let (lo, hi) = ([15, 10], [45, 20]);
    let cells = CellBox { lo, hi };
    let change = DirectoryChange::Patch { cells, bucket: 4 };
    if !comes(
        alloc,
        (&plane, &plane, &change, 9),
        (Ok(()), 3, 4),
        &mut steps,
    )? {
        return Ok(false);
    }
    let intervals = [2000];
    let line = Dims { intervals };
    let (lo, hi) = ([400], [1500]);
    let cells = CellBox { lo, hi };
    let change = DirectoryChange::Patch { cells, bucket: 4 };
    let cases = [
        (0, (Err(Refusal::WriteFault), 0, 0)),
        (1, (Err(Refusal::ReadFault), 0, 1)),
        (2, (Err(Refusal::WriteFault), 1, 1)),
        (3, (Err(Refusal::ReadFault), 1, 2)),
        (4, (Err(Refusal::WriteFault), 2, 2)),
        (5, (Ok(()), 2, 3)),
    ];
    for (calls, expected) in cases {
        if !comes(alloc, (&line, &line, &change, calls), expected, &mut steps)? {
            return Ok(false);
        }
    }
    Ok(true)
}

#[test]
fn directories_grow(rt: HostRuntime) -> Result<(), Fail> {
    assert!(rt; they_grow::<Brand>(rt.alloc(), Blank::new(1))?);
    assert!(rt; they_grow_in_space::<Brand>(rt.alloc(), Blank::new(1))?);
    Ok(())
}

#[test]
fn boxes_are_patched(rt: HostRuntime) -> Result<(), Fail> {
    assert!(rt; they_are_patched::<Brand>(rt.alloc(), Blank::new(1))?);
    Ok(())
}
