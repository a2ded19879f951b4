ghost use Rattle.std.specs.Prelude.{◌≡◌, ◌<◌, ◌≤◌, ◌+◌, ◌*◌, IfOk, IfSome};
ghost use Rattle.grid_types.specs.declared.sizes.TheConstants.{PAGE_BYTES, WORDS_ON_PAGE};
ghost use Rattle.grid_types.specs.Shapes.{file_pages};
ghost use Rattle.disk_memory.specs.Memories.{extent_of};
ghost use Rattle.linear_scales.specs.Roots.{IsRoot};

use super::*;
use arrayvec::ArrayVec;
use disk_memory::Memory;
use disk_trait::{Disk, Steps};
use grid_types::{Geometry, NUMBERS_ON_PAGE, PAGE_BYTES, Refusal, Shape, WORDS_ON_PAGE};
use linear_scales::{NOWHERE, Root};
use root_pages::{RootHeader, encode_fields, encode_list, encode_scale, encode_table};
use std::alloc::{AllocError, Global};
use std::marker::Brand;
use std::sync::ledger::{Blank, Ledger};
use std::test::*;

mod crashes;
mod damage;
mod roots;

const ATTRIBUTES: usize = 2;

/// The pages of a small file: two header pages, two table areas of ten, a half of two pages twice, and eight data pages.
const SMALL: u64 = 34;

/// The pages of a large file: its bucket table takes two pages, so that a table area has eleven.
const LARGE: u64 = 1128;

/// The shape of a file with so many data pages.
const fn shape(pages: u32) -> Shape
    ensures { result
        ≡ record { k = 2; capacity = 2; pages = pages; slots = 1; boundaries = 600; cells = 1000 } }
{
    Shape {
        k: 2,
        capacity: 2,
        pages,
        slots: 1,
        boundaries: 600,
        cells: 1000,
    }
}

#[tactic(auto, unfolding(grid_types::specs::Shapes::is_shape, grid_types::specs::Shapes::file_pages))]
fn small() -> Geometry
    ensures attributes { result.shape.k ≡ ATTRIBUTES }
    ensures pages { file_pages result.shape ≡ SMALL }
{
    Geometry { shape: shape(8) }
}

#[tactic(auto, unfolding(grid_types::specs::Shapes::is_shape, grid_types::specs::Shapes::file_pages))]
fn large() -> Geometry
    ensures attributes { result.shape.k ≡ ATTRIBUTES }
    ensures pages { file_pages result.shape ≡ LARGE }
{
    Geometry { shape: shape(1100) }
}

/// Writes the page of that number.
fn put_page(disk: &mut Memory, number: u32, page: &[u8; PAGE_BYTES]) -> bool
    requires inside { number * PAGE_BYTES + PAGE_BYTES ≤ extent_of disk.old }
    ensures size { extent_of disk.new ≡ extent_of disk.old }
{
    disk.write(u64::from(number) * PAGE_BYTES as u64, page)
        .is_ok()
}

/// The boundaries 1 to 500.
fn low_boundaries() -> [u64; NUMBERS_ON_PAGE] {
    let mut all = [0; NUMBERS_ON_PAGE];
    for i in 0..NUMBERS_ON_PAGE {
        all[i] = i as u64 + 1;
    }
    all
}

/// Writes the table area of root 0, but for its bucket table: the boundaries 1 to 500 and 1000 of attribute 0, none of
/// attribute 1, and one part.
fn put_scales(disk: &mut Memory) -> bool
    requires size { SMALL * PAGE_BYTES ≤ extent_of disk.old }
    ensures size { extent_of disk.new ≡ extent_of disk.old }
{
    let mut page = [0; PAGE_BYTES];
    encode_scale(0, 0, &low_boundaries(), &mut page);
    let mut done = put_page(disk, 2, &page);
    encode_scale(0, 1, &[1000], &mut page);
    done &= put_page(disk, 3, &page);
    for i in 2..8 {
        encode_scale(0, i, &[], &mut page);
        done &= put_page(disk, 2 + i, &page);
    }
    encode_list(0, 8, &[0], &mut page);
    done & put_page(disk, 10, &page)
}

/// Writes a page of the bucket table of root 0, where one number has a bucket.
fn put_table<const N: usize>(disk: &mut Memory, index: u32, number: usize, data_page: u32) -> bool
    requires few { N ≤ WORDS_ON_PAGE }
    requires number { number < N }
    requires index { index < 32 }
    requires size { SMALL * PAGE_BYTES ≤ extent_of disk.old }
    ensures size { extent_of disk.new ≡ extent_of disk.old }
{
    let mut table = [NOWHERE; N];
    table[number] = data_page;
    let mut page = [0; PAGE_BYTES];
    encode_table(0, index, &table, &mut page);
    put_page(disk, 2 + index, &page)
}

/// The fields of a root with so many buckets.
fn header(number: u64, session: u64, buckets: u32) -> RootHeader {
    let mut boundaries = ArrayVec::new();
    boundaries.push(501);
    boundaries.push(0);
    RootHeader {
        number,
        session,
        front: 7,
        records: 2,
        boundaries,
        parts: 1,
        buckets,
    }
}

/// Writes header page 0, open over root 0 with so many buckets.
fn put_header(disk: &mut Memory, buckets: u32) -> bool
    requires size { SMALL * PAGE_BYTES ≤ extent_of disk.old }
    ensures size { extent_of disk.new ≡ extent_of disk.old }
{
    let mut bytes = [0; 56];
    encode_fields(&header(0, 3, buckets), &mut bytes);
    let mut page = [0; PAGE_BYTES];
    page[64] = 1;
    page[72..128].copy_from_slice(&bytes);
    put_page(disk, 0, &page)
}

/// A small file with root 0, all of it on the disk.
fn small_file(alloc: Global) -> Result<Memory, AllocError>
    ensures size { IfOk result (λ m. extent_of m ≡ SMALL * PAGE_BYTES) }
{
    let mut disk = Memory::new(alloc, SMALL)?;
    let _ = put_scales(&mut disk);
    let _ = put_table::<8>(&mut disk, 9, 0, 1);
    let _ = put_header(&mut disk, 1);
    let _ = disk.sync();
    Ok(disk)
}

/// A large file with root 0, which has a bucket on each page of its table.
fn large_file(alloc: Global) -> Result<Memory, AllocError>
    ensures size { IfOk result (λ m. extent_of m ≡ LARGE * PAGE_BYTES) }
{
    let mut disk = Memory::new(alloc, LARGE)?;
    let _ = put_scales(&mut disk);
    let _ = put_table::<WORDS_ON_PAGE>(&mut disk, 9, 0, 1);
    let _ = put_table::<100>(&mut disk, 10, 50, 2);
    let _ = put_header(&mut disk, 2);
    let _ = disk.sync();
    Ok(disk)
}

/// The newest root, which has a spelling.
fn newest<L: Ledger>(
    alloc: Global,
    disk: &mut Memory,
    geometry: &Geometry,
    steps: &mut Steps<L>,
) -> Result<Root<ATTRIBUTES>, Refusal>
    requires attributes { geometry.now.shape.k ≡ ATTRIBUTES }
    requires size { file_pages geometry.now.shape * PAGE_BYTES ≤ extent_of disk.old }
    ensures root { IfOk result (λ r. IsRoot geometry.now.shape r) }
    ensures size { extent_of disk.new ≡ extent_of disk.old }
{
    read_newest(alloc, disk, geometry, steps)
}

/// The same root of the next session.
fn renewed(root: Root<ATTRIBUTES>, geometry: &Geometry) -> Root<ATTRIBUTES>
    requires root { IsRoot geometry.now.shape root }
    requires session { root.session < 1000 }
    ensures root { IsRoot geometry.now.shape result }
    ensures number { result.number ≡ root.number }
    ensures session { result.session ≡ root.session + 1 }
{
    let mut root = root;
    root.session += 1;
    root
}

/// The same root with the next number, of the next session.
fn next(root: Root<ATTRIBUTES>, geometry: &Geometry) -> Root<ATTRIBUTES>
    requires root { IsRoot geometry.now.shape root }
    requires number { root.number < 1000 }
    requires session { root.session < 1000 }
    ensures root { IsRoot geometry.now.shape result }
    ensures number { result.number ≡ root.number + 1 }
    ensures session { result.session ≡ root.session + 1 }
{
    let mut root = root;
    root.number += 1;
    root.session += 1;
    root
}

/// The newest root, where its numbers leave room for some roots behind it.
fn early<L: Ledger>(
    alloc: Global,
    disk: &mut Memory,
    geometry: &Geometry,
    steps: &mut Steps<L>,
) -> Option<Root<ATTRIBUTES>>
    requires attributes { geometry.now.shape.k ≡ ATTRIBUTES }
    requires size { file_pages geometry.now.shape * PAGE_BYTES ≤ extent_of disk.old }
    ensures root { IfSome result (λ r. IsRoot geometry.now.shape r) }
    ensures number { IfSome result (λ r. r.number < 100) }
    ensures session { IfSome result (λ r. r.session < 100) }
    ensures size { extent_of disk.new ≡ extent_of disk.old }
{
    let root = match newest(alloc, disk, geometry, steps) {
        Ok(root) => root,
        Err(_) => return None,
    };
    if root.number >= 100 {
        return None;
    }
    if root.session >= 100 {
        return None;
    }
    Some(root)
}

/// Closes the header page of a root, and writes the root.
fn replace<D: Disk, L: Ledger>(
    disk: &mut D,
    geometry: &Geometry,
    root: &Root<ATTRIBUTES>,
    steps: &mut Steps<L>,
) -> bool
    requires attributes { geometry.now.shape.k ≡ ATTRIBUTES }
    requires root { IsRoot geometry.now.shape root.now }
    requires size { file_pages geometry.now.shape * PAGE_BYTES ≤ D.extent disk.old }
    ensures size { D.extent disk.new ≡ D.extent disk.old }
{
    if close_root(disk, geometry, root.number, steps).is_err() {
        return false;
    }
    write_root(disk, geometry, root).is_ok()
}

/// Writes a root behind the newest one.
fn advance<L: Ledger>(
    alloc: Global,
    disk: &mut Memory,
    geometry: &Geometry,
    steps: &mut Steps<L>,
) -> bool
    requires attributes { geometry.now.shape.k ≡ ATTRIBUTES }
    requires size { file_pages geometry.now.shape * PAGE_BYTES ≤ extent_of disk.old }
    ensures size { extent_of disk.new ≡ extent_of disk.old }
{
    let Some(root) = early(alloc, disk, geometry, steps) else {
        return false;
    };
    let root = next(root, geometry);
    replace(disk, geometry, &root, steps)
}

/// What is told of the newest root.
#[derive(Clone, Copy, PartialEq, Eq)]
struct Summary {
    /// Its number, or 1000 and the page that is damaged.
    number: u64,
    session: u64,
    /// How many boundaries attribute 0 has.
    boundaries: usize,
    /// How many numbers its table has.
    count: usize,
    /// The data pages of the numbers 0, 1050 and 1051.
    pages: [u32; 3],
}

fn page_of(table: &[u32], number: usize) -> u32 {
    table.get(number).copied().unwrap_or(NOWHERE)
}

fn told<L: Ledger>(
    alloc: Global,
    disk: &mut Memory,
    geometry: &Geometry,
    steps: &mut Steps<L>,
) -> Summary
    requires attributes { geometry.now.shape.k ≡ ATTRIBUTES }
    requires size { file_pages geometry.now.shape * PAGE_BYTES ≤ extent_of disk.old }
    ensures size { extent_of disk.new ≡ extent_of disk.old }
{
    let mut told = Summary {
        number: 9999,
        session: 9999,
        boundaries: 0,
        count: 0,
        pages: [NOWHERE; 3],
    };
    match newest(alloc, disk, geometry, steps) {
        Ok(root) => {
            let table = root.table.list();
            told.number = root.number;
            told.session = root.session;
            told.boundaries = root.scales.scale(0).boundaries().len();
            told.count = table.len();
            told.pages = [
                page_of(table, 0),
                page_of(table, 1050),
                page_of(table, 1051),
            ];
        }
        Err(Refusal::Damaged { page }) => told.number = 1000 + u64::from(page),
        Err(_) => {}
    }
    told
}

/// What was tried over files in memory, and holds.
#[derive(Clone, Copy)]
struct Tried {
    turns: bool,
    two_pages: bool,
    faults: bool,
    small_damage: bool,
    large_damage: bool,
    crashes: bool,
    retries: bool,
    headers: bool,
}

fn try_all<L: Ledger>(alloc: Global, blank: Blank) -> Result<Tried, AllocError>
    requires name { blank.name ≡ L.name }
    requires parts { blank.parts ≡ L.parts }
    requires some { 0 < L.parts }
{
    let mut steps = Steps::<L>::new(blank);
    Ok(Tried {
        turns: roots::takes_turns(alloc, &mut steps)?,
        two_pages: roots::takes_two_pages(alloc, &mut steps)?,
        faults: roots::tells_faults(alloc, &mut steps)?,
        small_damage: damage::is_named_in_a_small_file(alloc, &mut steps)?,
        large_damage: damage::is_named_in_a_large_file(alloc, &mut steps)?,
        crashes: crashes::leaves_a_root(alloc, &mut steps)?,
        retries: crashes::may_be_tried_again(alloc, &mut steps)?,
        headers: roots::writes_headers_again(alloc, &mut steps)?,
    })
}

#[test]
fn roots_are_written_read_and_kept(rt: HostRuntime) -> Result<(), Fail> {
    area_law();
    damage_law();
    replacing_law();
    uniqueness_law();
    let tried = try_all::<Brand>(rt.alloc(), Blank::new(1))?;
    assert!(rt; tried.turns);
    assert!(rt; tried.two_pages);
    assert!(rt; tried.faults);
    assert!(rt; tried.small_damage);
    assert!(rt; tried.large_damage);
    assert!(rt; tried.crashes);
    assert!(rt; tried.retries);
    assert!(rt; tried.headers);
    Ok(())
}
