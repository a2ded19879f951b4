//! The bytes of the pages of a table area.
ghost use Rattle.std.specs.Prelude.{◌≡◌, ◌≤◌, length, take};
ghost use Rattle.grid_types.specs.declared.sizes.TheConstants.{HEAD_BYTES, NUMBERS_ON_PAGE, WORDS_ON_PAGE};
ghost use Rattle.page_fields.specs.Padded.{padded};
ghost use Rattle.grid_model.specs.Spellings.{area_head, scale_spelling, list_spelling, bucket_table_spelling};
ghost use Rattle.root_pages.specs.Areas.{entries_page, SpellsScale, SpellsList, SpellsTable};

use grid_types::{HEAD_BYTES, PAGE_BYTES};
use page_fields::{put_bytes, put_numbers, put_words, put_zeros, set_u32, set_u64};

fn put_head(page: &mut [u8; PAGE_BYTES], kind: &[u8; 4], root: u64, index: u32, count: u32)
    ensures { take HEAD_BYTES page.new ≡ padded HEAD_BYTES (area_head kind.now index count root) }
{
    put_bytes(page, 0, kind);
    set_u32(page, 4, index);
    set_u32(page, 8, count);
    put_zeros(page, 12, 16);
    set_u64(page, 16, root);
    put_zeros(page, 24, HEAD_BYTES);
}

/// Makes `page` a page with these boundaries of a scale, whatever it was before.
pub fn encode_scale(root: u64, index: u32, boundaries: &[u64], page: &mut [u8; PAGE_BYTES])
    requires { length boundaries.now ≤ NUMBERS_ON_PAGE }
    ensures written { page.new ≡ scale_spelling root index boundaries.now }
    ensures spelled { SpellsScale root index page.new boundaries.now }
{
    put_head(page, b"GFS1", root, index, boundaries.len() as u32);
    put_numbers(page, HEAD_BYTES, boundaries);
    put_zeros(page, HEAD_BYTES + 8 * boundaries.len(), PAGE_BYTES);
}

fn encode_pages(page: &mut [u8; PAGE_BYTES], kind: &[u8; 4], root: u64, index: u32, pages: &[u32])
    requires { length pages.now ≤ WORDS_ON_PAGE }
    ensures { page.new ≡ entries_page 4 kind.now root index pages.now }
{
    put_head(page, kind, root, index, pages.len() as u32);
    put_words(page, HEAD_BYTES, pages);
    put_zeros(page, HEAD_BYTES + 4 * pages.len(), PAGE_BYTES);
}

/// Makes `page` the page with the data page of each directory part, whatever it was before.
pub fn encode_list(root: u64, index: u32, pages: &[u32], page: &mut [u8; PAGE_BYTES])
    requires { length pages.now ≤ WORDS_ON_PAGE }
    ensures written { page.new ≡ list_spelling root index pages.now }
    ensures spelled { SpellsList root index page.new pages.now }
{
    encode_pages(page, b"GFL1", root, index, pages);
}

/// Makes `page` a page with the data pages of these bucket numbers, whatever it was before.
pub fn encode_table(root: u64, index: u32, pages: &[u32], page: &mut [u8; PAGE_BYTES])
    requires { length pages.now ≤ WORDS_ON_PAGE }
    ensures written { page.new ≡ bucket_table_spelling root index pages.now }
    ensures spelled { SpellsTable root index page.new pages.now }
{
    encode_pages(page, b"GFT1", root, index, pages);
}
