//! One cell of a directory page.
ghost use Rattle.std.specs.Prelude.{◌≡◌, ◌<◌, ◌+◌, ◌*◌, ℕ, List, length, slice_index, slice_set};
ghost use Rattle.page_fields.specs.Fields.{bytes_of, replaced};
ghost use Rattle.directory_pages.specs.Spelling.{SpellsPart, bucket_in};

use page_fields::{get_u32, set_u32};

/// The bucket number of a cell. It says nothing of the rest of the page, which `is_directory_page` judges.
pub fn bucket_at(page: &[u8; 4096], i: u32) -> u32
    requires inside { i < 1000 }
    ensures number { result ≡ bucket_in i page.now }
    ensures cell { (part : ℕ) (cells : List ℕ)
        → SpellsPart part page.now cells
        → i < length cells
        → result ≡ slice_index cells i }
{
    get_u32(page, 96 + 4 * i as usize)
}

/// Writes the bucket number of a cell.
pub fn set_bucket(page: &mut [u8; 4096], i: u32, bucket: u32)
    requires inside { i < 1000 }
    ensures written { page.new ≡ replaced (96 + 4 * i) (bytes_of 4 bucket) page.old }
    ensures cells { (part : ℕ) (cells : List ℕ)
        → SpellsPart part page.old cells
        → i < length cells
        → SpellsPart part page.new (slice_set cells i bucket) }
{
    set_u32(page, 96 + 4 * i as usize, bucket);
}
