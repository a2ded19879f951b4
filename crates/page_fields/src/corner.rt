//! Corners in the bytes of a page.
ghost use Rattle.std.specs.Prelude.{◌≤◌, ◌+◌};
ghost use Rattle.page_fields.specs.Corners.{CornerAt};
ghost use Rattle.grid_types.specs.declared.sizes.TheConstants.{KEY_BYTES, MOST_ATTRIBUTES, PAGE_BYTES};

use crate::get_u64;
use grid_types::PAGE_BYTES;

/// The corner whose numbers stand from an offset on.
pub fn get_corner<const K: usize>(page: &[u8; PAGE_BYTES], at: usize) -> [u64; K]
    requires room { at + KEY_BYTES ≤ PAGE_BYTES }
    requires few { K ≤ MOST_ATTRIBUTES }
    ensures { CornerAt K page.now at result }
{
    let mut corner = [0; K];
    for a in 0..K {
        corner[a] = get_u64(page, at + 8 * a);
    }
    corner
}
