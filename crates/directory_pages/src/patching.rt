//! Cells of a directory page that get another bucket.
ghost use Rattle.std.specs.Prelude.{◌≡◌, ℕ, List, length, slice_index, IsTrue};
ghost use Rattle.grid_model.specs.Lists.{is_among};
ghost use Rattle.directory_pages.specs.Spelling.{SpellsPart, bucket_in};
ghost use Rattle.directory_pages.specs.Patching.{AreCells, IsBesideCells, patched};

use crate::set_bucket;

/// Gives each of these cells the bucket, and changes no other byte.
pub fn patch(page: &mut [u8; 4096], indices: &[u32], bucket: u32)
    requires inside { AreCells 1000 indices.now }
    ensures named { (i : ℕ) → IsTrue (is_among indices.now i) → bucket_in i page.new ≡ bucket }
    ensures others { (k : ℕ)
        → IsBesideCells indices.now k
        → slice_index page.new k ≡ slice_index page.old k }
    ensures cells { (part : ℕ) (cells : List ℕ)
        → SpellsPart part page.old cells
        → AreCells (length cells) indices.now
        → SpellsPart part page.new (patched indices.now bucket cells) }
{
    for i in indices {
        set_bucket(page, *i, bucket);
    }
}
