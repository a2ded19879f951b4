//! The page of a part of the directory.
ghost use Rattle.std.specs.Prelude.{◌≡◌, ◌≤◌, length, take};
ghost use Rattle.grid_model.specs.Spellings.{directory_spelling};
ghost use Rattle.directory_pages.specs.Spelling.{SpellsPart, part_head};

use page_fields::{put_bytes, put_words, put_zeros, set_u32};

fn put_head(page: &mut [u8; 4096], part: u32, count: u32)
    ensures front { take 96 page.new ≡ part_head part count }
{
    put_bytes(page, 0, b"GFD1");
    set_u32(page, 4, part);
    set_u32(page, 8, count);
    put_zeros(page, 12, 96);
}

/// Makes `page` the page of a part with these cells, whatever it was before.
pub fn encode(part: u32, cells: &[u32], page: &mut [u8; 4096])
    requires some { 1 ≤ length cells.now }
    requires few { length cells.now ≤ 1000 }
    ensures written { page.new ≡ directory_spelling part cells.now }
    ensures spelled { SpellsPart part page.new cells.now }
{
    put_head(page, part, cells.len() as u32);
    put_words(page, 96, cells);
    put_zeros(page, 96 + 4 * cells.len(), 4096);
}
