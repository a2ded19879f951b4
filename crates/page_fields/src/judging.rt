//! Whether bytes of a page are 0.
ghost use Rattle.std.specs.Prelude.{◌≤◌, ◌<◌, ◌↔◌, IsTrue};
ghost use Rattle.page_fields.specs.Fields.{AreZeros};
ghost use Rattle.grid_types.specs.declared.sizes.TheConstants.{PAGE_BYTES};

use crate::words::zeros_by_words;
use grid_types::PAGE_BYTES;

const ZEROS: [u8; PAGE_BYTES] = [0; PAGE_BYTES];

/// Up to so many bytes are read as words, which a comparison of slices takes longer to begin with.
const SHORT: usize = 64;

/// Whether the bytes from one offset up to another are 0. They are compared in groups, not one by one.
pub fn zeros(page: &[u8; PAGE_BYTES], from: usize, to: usize) -> bool
    requires { to ≤ PAGE_BYTES }
    ensures { IsTrue result ↔ AreZeros from to page.now }
{
    if to <= from {
        return true;
    }
    if to - from <= SHORT {
        return zeros_by_words(page, from, to);
    }
    page[from..to] == ZEROS[..to - from]
}
