//! Whether a page is a directory page.
ghost use Rattle.std.specs.Prelude.{◌≤◌, ◌↔◌, IsTrue};
ghost use Rattle.directory_pages.specs.Spelling.{IsDirectoryPage};
ghost use Rattle.directory_pages.specs.Reading.{IsPartHead};

use page_fields::{get_u32, zeros};

/// Whether the front of the page is the head of that part with so many cells.
fn has_head(page: &[u8; 4096], part: u32, count: u32) -> bool
    ensures { IsTrue result ↔ IsPartHead part count page.now }
{
    page.starts_with(b"GFD1")
        && get_u32(page, 4) == part
        && get_u32(page, 8) == count
        && zeros(page, 12, 96)
}

/// Whether this is the directory page of that part with so many cells. `bucket_at` reads the cells.
pub fn is_directory_page(page: &[u8; 4096], part: u32, count: u32) -> bool
    requires some { 1 ≤ count }
    requires few { count ≤ 1000 }
    ensures { IsTrue result ↔ IsDirectoryPage part count page.now }
{
    has_head(page, part, count) && zeros(page, 96 + 4 * count as usize, 4096)
}
