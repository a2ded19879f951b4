//! The steps that leave whose each page is at the front: a sweep, claims, and what becomes of roots, sessions and the journal.
ghost use Rattle.std.specs.Prelude.{◌≡◌, ◌<◌, ◌≤◌, ◌^◌, ℕ, length, take};
ghost use Rattle.std.specs.List.{count_by};
ghost use Rattle.page_states.specs.States.{is_free};
ghost use Rattle.page_states.specs.Effects.{free_pages};
ghost use Rattle.file_books.specs.Effects.{swept_books, committed_books, session_books, closed_books, turned_books, rooted_books, cleaned_books, used_of};
ghost use Rattle.file_state.specs.Memories.{books_of, IsMemory};
ghost use Rattle.file_state.specs.Claims.{claimed_books, given_back_books};

use crate::journal::other;
use crate::memory::{Memory, Roots};

/// The replaced pages that no root needs are free.
pub(crate) fn sweep<const K: usize>(memory: &mut Memory<K>)
    requires { IsMemory memory.old }
    ensures memory { IsMemory memory.new }
    ensures books { books_of memory.new ≡ swept_books (books_of memory.old) }
{
    match memory.roots.trying {
        None => memory.pages.sweep(&[memory.roots.place]),
        Some(trying) => memory.pages.sweep(&[memory.roots.place, trying]),
    }
}

/// A seat claims the free pages of the lowest numbers.
pub(crate) fn claim<const K: usize>(memory: &mut Memory<K>, seat: u32, out: &mut [u32])
    requires memory { IsMemory memory.old }
    requires enough { length out.old ≤ count_by is_free memory.old.pages }
    ensures memory { IsMemory memory.new }
    ensures pages { out.new ≡ take (length out.old) (free_pages memory.old.pages) }
    ensures books { books_of memory.new ≡ claimed_books seat out.new (books_of memory.old) }
{
    memory.pages.claim(seat, out);
}

/// What a seat claimed and did not publish is free.
pub(crate) fn give_back<const K: usize>(memory: &mut Memory<K>, seat: u32)
    requires { IsMemory memory.old }
    ensures memory { IsMemory memory.new }
    ensures books { books_of memory.new ≡ given_back_books seat (books_of memory.old) }
{
    memory.pages.give_back(seat);
}

/// One more slot of the current half is used.
pub(crate) fn commit_slot<const K: usize>(memory: &mut Memory<K>)
    requires memory { IsMemory memory.old }
    requires free { used_of (books_of memory.old) (books_of memory.old).half
        < memory.old.geometry.shape.slots }
    ensures memory { IsMemory memory.new }
    ensures books { books_of memory.new ≡ committed_books (books_of memory.old) }
{
    let half = memory.journal.half;
    let used = memory.journal.used(half);
    memory.journal.set_used(half, used + 1);
}

/// A new session begins.
pub(crate) fn begin_session<const K: usize>(memory: &mut Memory<K>)
    requires memory { IsMemory memory.old }
    requires more { memory.old.counts.session < 2 ^ 63 }
    ensures memory { IsMemory memory.new }
    ensures books { books_of memory.new ≡ session_books (books_of memory.old) }
{
    memory.counts.session += 1;
}

/// No root is tried.
pub(crate) fn closed<const K: usize>(memory: &mut Memory<K>)
    requires { IsMemory memory.old }
    ensures memory { IsMemory memory.new }
    ensures books { books_of memory.new ≡ closed_books (books_of memory.old) }
{
    memory.roots.trying = None;
}

/// A root is to be written at the front.
pub(crate) fn turn<const K: usize>(memory: &mut Memory<K>)
    requires { IsMemory memory.old }
    ensures memory { IsMemory memory.new }
    ensures books { books_of memory.new ≡ turned_books (books_of memory.old) }
{
    memory.roots.trying = Some(memory.counts.front);
    let idle = other(memory.journal.half);
    if memory.journal.used(idle) == 0 {
        memory.journal.half = idle;
    }
}

/// That root stands.
pub(crate) fn rooted<const K: usize>(memory: &mut Memory<K>)
    requires memory { IsMemory memory.old }
    requires more { memory.old.roots.number < 2 ^ 63 }
    ensures memory { IsMemory memory.new }
    ensures books { books_of memory.new ≡ rooted_books (books_of memory.old) }
{
    let place = memory.roots.trying.unwrap_or(memory.roots.place);
    memory.roots = Roots {
        number: memory.roots.number + 1,
        place,
        trying: None,
    };
}

/// The half that is not current is clear.
pub(crate) fn cleaned<const K: usize>(memory: &mut Memory<K>)
    requires { IsMemory memory.old }
    ensures memory { IsMemory memory.new }
    ensures books { books_of memory.new ≡ cleaned_books (books_of memory.old) }
{
    let half = memory.journal.half;
    let idle = other(half);
    memory.journal.set_used(idle, 0);
    if memory.journal.used(half) == memory.geometry.shape.slots {
        memory.journal.half = idle;
    }
}
