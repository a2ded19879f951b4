//! What the state says of owners.
ghost use Rattle.std.specs.Prelude.{◌≡◌, ◌<◌, ℕ, false, IsTrue, IsSome, IfSome, IfNone};
ghost use Rattle.grid_types.specs.declared.owner.Owner.TheVariants.{Bucket};
ghost use Rattle.grid_model.specs.Cells.{cells};
ghost use Rattle.linear_scales.specs.Limited.{scales_of};
ghost use Rattle.page_states.specs.Effects.{IsPageAt};
ghost use Rattle.page_states.specs.States.{number_of};
ghost use Rattle.grid_types.specs.Halves.{half_number};
ghost use Rattle.file_books.specs.Books.{has_page};
ghost use Rattle.file_books.specs.Effects.{used_of};
ghost use Rattle.file_state.specs.Memories.{books_of, IsMemory};
ghost use Rattle.file_state.specs.Unused.{IsLeastUnused};

use crate::memory::Memory;
use grid_cells::Dims;
use grid_types::{Half, Owner};

/// The number of an owner.
fn number_of(owner: Owner) -> u32
    ensures { result ≡ number_of owner }
{
    match owner {
        Owner::Bucket(number) => number,
        Owner::Part(number) => number,
    }
}

/// The page of an owner at the front.
pub(crate) fn page_of<const K: usize>(memory: &Memory<K>, owner: Owner) -> Option<u32>
    requires { IsMemory memory.now }
    ensures found { IfSome result (λ p. IsPageAt owner memory.now.counts.front memory.now.pages p) }
    ensures there { IsSome result → IsTrue (has_page (books_of memory.now) owner) }
    ensures none { IfNone result (has_page (books_of memory.now) owner ≡ false) }
{
    if number_of(owner) >= memory.geometry.shape.pages {
        return None;
    }
    memory.pages.page_at(owner, memory.counts.front)
}

/// The least bucket number that has no page at the front. It is remembered, so that the numbers below it are not looked at
/// again.
pub(crate) fn find_unused<const K: usize>(memory: &mut Memory<K>) -> u32
    requires { IsMemory memory.old }
    ensures memory { IsMemory memory.new }
    ensures books { books_of memory.new ≡ books_of memory.old }
    ensures least { IsLeastUnused (books_of memory.old) result }
{
    for number in memory.unused_from..memory.geometry.shape.pages {
        match page_of(memory, Owner::Bucket(number)) {
            Some(_) => {}
            None => {
                memory.unused_from = number;
                return number;
            }
        }
    }
    unreachable!()
}

/// How many cells the directory has.
pub(crate) fn cells<const K: usize>(memory: &Memory<K>) -> u32
    requires { IsMemory memory.now }
    ensures { result ≡ cells (scales_of memory.now.scales) }
{
    let dims = Dims {
        intervals: memory.scales.dims(),
    };
    dims.cells()
}

/// How many slots of a half are used.
pub(crate) fn used<const K: usize>(memory: &Memory<K>, half: Half) -> u32
    ensures { result ≡ used_of (books_of memory.now) (half_number half) }
{
    memory.journal.used(half)
}

/// The next slot of the current half, if it has one.
pub(crate) fn next_slot<const K: usize>(memory: &Memory<K>) -> Option<u32>
    requires { IsMemory memory.now }
    ensures next { IfSome result (λ i. i ≡ used_of (books_of memory.now) (books_of memory.now).half) }
    ensures within { IfSome result (λ i. i < memory.now.geometry.shape.slots) }
    ensures full { IfNone result
        (used_of (books_of memory.now) (books_of memory.now).half ≡ memory.now.geometry.shape.slots) }
{
    let used = used(memory, memory.journal.half);
    if used < memory.geometry.shape.slots {
        return Some(used);
    }
    None
}
