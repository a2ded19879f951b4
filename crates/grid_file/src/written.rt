//! What was written of a change, which only proofs keep.
ghost use Rattle.std.specs.Prelude.{◌≡◌};

use grid_types::{Owner, PAGE_BYTES};
use picked::{Picked, Picks};
use std::collections::LinkedList;
use std::marker::Brand;

/// Each owner with the bytes that were written for it, in order. No value of this type is made.
pub(crate) struct Written {
    pub(crate) pages: LinkedList<(Owner, [u8; PAGE_BYTES])>,
}

impl Picks<Written> for Brand {
    ghost use Rattle.std.specs.Prelude.{[]};

    ghost value = { record { pages = [] } };
}

/// Nothing was written.
pub(crate) fn nothing<J: Picks<Written>>() -> Picked<Written>
    ensures { result.value ≡ J.value }
{
    Picked::new::<J>()
}

/// One page more was written.
pub(crate) fn with_one<J: Picks<Written>>(
    before: &Picked<Written>,
    owner: Owner,
    page: &[u8; PAGE_BYTES],
) -> Picked<Written>
    ensures { result.value ≡ J.value }
{
    let _ = before;
    let _ = owner;
    let _ = page;
    Picked::new::<J>()
}
