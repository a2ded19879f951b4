//! Whether a page is one of a table area, and its entries.
ghost use Rattle.std.specs.Prelude.{◌≡◌, ◌≤◌, ◌<◌, ◌+◌, ◌*◌, ◌↔◌, ℕ, List, IsTrue, length, drop, slice_index};
ghost use Rattle.grid_types.specs.declared.sizes.TheConstants.{HEAD_BYTES, NUMBERS_ON_PAGE, WORDS_ON_PAGE};
ghost use Rattle.page_fields.specs.Fields.{number};
ghost use Rattle.root_pages.specs.Areas.{SpellsScale, SpellsList, SpellsTable, IsScalePage, IsListPage, IsTablePage};
ghost use Rattle.root_pages.specs.Reading.{IsAreaHead, IsPageUpTo};

use grid_types::{HEAD_BYTES, PAGE_BYTES};
use page_fields::{get_u32, get_u64, zeros};

/// Whether the front of the page is the head of a page of a table area.
fn has_head(page: &[u8; PAGE_BYTES], kind: &[u8; 4], root: u64, index: u32, count: u32) -> bool
    ensures { IsTrue result ↔ IsAreaHead kind.now root index count page.now }
{
    page.starts_with(kind)
        && get_u32(page, 4) == index
        && get_u32(page, 8) == count
        && zeros(page, 12, 16)
        && get_u64(page, 16) == root
        && zeros(page, 24, HEAD_BYTES)
}

/// Whether the page has that head, and zeros from its end on.
fn is_page(
    page: &[u8; PAGE_BYTES],
    kind: &[u8; 4],
    root: u64,
    index: u32,
    count: u32,
    end: usize,
) -> bool
    ensures { IsTrue result ↔ IsPageUpTo kind.now root index count end page.now }
{
    has_head(page, kind, root, index, count) && zeros(page, end, PAGE_BYTES)
}

/// Whether this page has so many boundaries of a scale of this root, at this index of the table area. `boundary_at`
/// reads them, and whether they ascend is not looked at.
pub fn is_scale_page(page: &[u8; PAGE_BYTES], root: u64, index: u32, count: usize) -> bool
    requires { count ≤ NUMBERS_ON_PAGE }
    ensures { IsTrue result ↔ IsScalePage root index count page.now }
{
    is_page(
        page,
        b"GFS1",
        root,
        index,
        count as u32,
        HEAD_BYTES + 8 * count,
    )
}

/// Whether this page has the data pages of so many directory parts. `entry_at` reads them.
pub fn is_list_page(page: &[u8; PAGE_BYTES], root: u64, index: u32, count: usize) -> bool
    requires { count ≤ WORDS_ON_PAGE }
    ensures { IsTrue result ↔ IsListPage root index count page.now }
{
    is_page(
        page,
        b"GFL1",
        root,
        index,
        count as u32,
        HEAD_BYTES + 4 * count,
    )
}

/// Whether this page has the data pages of so many bucket numbers. `entry_at` reads them.
pub fn is_table_page(page: &[u8; PAGE_BYTES], root: u64, index: u32, count: usize) -> bool
    requires { count ≤ WORDS_ON_PAGE }
    ensures { IsTrue result ↔ IsTablePage root index count page.now }
{
    is_page(
        page,
        b"GFT1",
        root,
        index,
        count as u32,
        HEAD_BYTES + 4 * count,
    )
}

/// The boundary at that place on a page of a scale. It says nothing of the rest of the page, which `is_scale_page`
/// judges.
pub fn boundary_at(page: &[u8; PAGE_BYTES], i: usize) -> u64
    requires { i < NUMBERS_ON_PAGE }
    ensures number { result ≡ number 8 (drop (HEAD_BYTES + 8 * i) page.now) }
    ensures boundary { (root index : ℕ) (boundaries : List ℕ)
        → SpellsScale root index page.now boundaries
        → i < length boundaries
        → result ≡ slice_index boundaries i }
{
    get_u64(page, HEAD_BYTES + 8 * i)
}

/// The data page at that place on a page of the directory's list or of the bucket table. It says nothing of the rest of
/// the page, which `is_list_page` and `is_table_page` judge.
pub fn entry_at(page: &[u8; PAGE_BYTES], i: usize) -> u32
    requires { i < WORDS_ON_PAGE }
    ensures number { result ≡ number 4 (drop (HEAD_BYTES + 4 * i) page.now) }
    ensures list { (root index : ℕ) (pages : List ℕ)
        → SpellsList root index page.now pages
        → i < length pages
        → result ≡ slice_index pages i }
    ensures table { (root index : ℕ) (pages : List ℕ)
        → SpellsTable root index page.now pages
        → i < length pages
        → result ≡ slice_index pages i }
{
    get_u32(page, HEAD_BYTES + 4 * i)
}
