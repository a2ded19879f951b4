//! Where the newest page of an owner is written down.
ghost use Rattle.std.specs.Prelude.{◌≡◌};
ghost use Rattle.page_states.specs.States.{slot};

use grid_types::Owner;

/// The slot of an owner: buckets have the even ones, parts the odd ones.
pub(crate) fn slot_of(owner: Owner) -> usize
    ensures { result ≡ slot owner }
{
    match owner {
        Owner::Bucket(number) => 2 * number as usize,
        Owner::Part(number) => 2 * number as usize + 1,
    }
}
