//! Whether a few bytes of a page are 0, judged by words: a gap between fields costs less so than as a slice.
ghost use Rattle.std.specs.Prelude.{◌≤◌, ◌<◌, ◌+◌, ◌↔◌, IsTrue};
ghost use Rattle.grid_types.specs.declared.sizes.TheConstants.{PAGE_BYTES};
ghost use Rattle.page_fields.specs.Fields.{AreZeros};

use crate::{get_u16, get_u32, get_u64};
use grid_types::PAGE_BYTES;

/// Whether fewer than four bytes are 0.
fn up_to_three_zeros(page: &[u8; PAGE_BYTES], from: usize, to: usize) -> bool
    requires inside { to ≤ PAGE_BYTES }
    requires few { to < from + 4 }
    ensures { IsTrue result ↔ AreZeros from to page.now }
{
    if to <= from {
        return true;
    }
    if to - from == 1 {
        return page[from] == 0;
    }
    get_u16(page, from) == 0 && get_u16(page, to - 2) == 0
}

/// Whether fewer than eight bytes are 0.
fn up_to_seven_zeros(page: &[u8; PAGE_BYTES], from: usize, to: usize) -> bool
    requires inside { to ≤ PAGE_BYTES }
    requires few { to < from + 8 }
    requires start { from ≤ PAGE_BYTES }
    ensures { IsTrue result ↔ AreZeros from to page.now }
{
    if to < from + 4 {
        return up_to_three_zeros(page, from, to);
    }
    get_u32(page, from) == 0 && get_u32(page, to - 4) == 0
}

/// Whether the bytes from one offset up to another are 0. The last word may overlap the one before it.
pub(crate) fn zeros_by_words(page: &[u8; PAGE_BYTES], from: usize, to: usize) -> bool
    requires inside { to ≤ PAGE_BYTES }
    requires start { from ≤ PAGE_BYTES }
    ensures { IsTrue result ↔ AreZeros from to page.now }
{
    if to < from + 8 {
        return up_to_seven_zeros(page, from, to);
    }
    let last = to - 8;
    for i in 0..(last - from + 7) / 8 {
        if get_u64(page, from + 8 * i) != 0 {
            return false;
        }
    }
    get_u64(page, last) == 0
}
