//! The pages that are claimed for a change.
ghost use Rattle.std.specs.Prelude.{◌≡◌, ◌<◌, ◌≤◌, ◌+◌, ◌-◌, ◌++◌, [], length, take, slice_index};
ghost use Rattle.std.specs.List.{count_by};
ghost use Rattle.page_states.specs.States.{is_free};
ghost use Rattle.page_states.specs.Effects.{free_pages};
ghost use Rattle.file_state.specs.Claims.{claimed_books};
ghost use Rattle.grid_file.specs.Files.{client};
ghost use Rattle.grid_file.specs.declared.claimed.TheConstants.{MOST_NEW_PAGES};

use file_state::FileState;
use std::marker::Model;

/// The most pages that a change writes: those of two buckets, and of a directory's thousand parts.
pub const MOST_NEW_PAGES: usize = 1002;

/// The seat that the one client has in a file's books.
pub(crate) const CLIENT: u32 = 0;

/// Data pages that are claimed for a change, in the order in which they are written.
#[derive(Drop)]
pub struct Claimed {
    pages: [u32; MOST_NEW_PAGES],
    count: usize,
}

impl Model for Claimed {
    ghost use Rattle.std.specs.Prelude.{◌≤◌, ℕ, List, take};

    ghost Value = { List ℕ };

    ghost view = { λ c. take c.count c.pages };

    ghost invariant = { λ c. c.count ≤ 1002 };
}

/// Claims as many pages as there are places from one on and before another one.
fn claim_between<const K: usize>(
    pages: &mut [u32; MOST_NEW_PAGES],
    from: usize,
    end: usize,
    state: &mut FileState<K>,
)
    requires order { from ≤ end }
    requires room { end ≤ MOST_NEW_PAGES }
    requires free { end ≤ from + count_by is_free state.old.pages }
    ensures pages { take end pages.new
        ≡ take from pages.old ++ take (end - from) (free_pages state.old.pages) }
    ensures books { state.new
        ≡ claimed_books client (take (end - from) (free_pages state.old.pages)) state.old }
{
    state.claim(CLIENT, &mut pages[from..end]);
}

impl Claimed {
    /// No pages.
    pub fn none() -> Claimed
        ensures { result ≡ [] }
    {
        Claimed {
            pages: [0; MOST_NEW_PAGES],
            count: 0,
        }
    }

    pub fn list(&self) -> &[u32]
        ensures pages { result.now ≡ self.now }
        ensures few { length self.now ≤ MOST_NEW_PAGES }
    {
        &self.pages[..self.count]
    }

    /// The page at a place of the list.
    pub fn page(&self, i: usize) -> u32
        requires { i < length self.now }
        ensures page { result ≡ slice_index self.now i }
        ensures few { length self.now ≤ MOST_NEW_PAGES }
    {
        self.list()[i]
    }

    /// The client claims so many pages more: the free ones of the lowest numbers.
    pub fn claim<const K: usize>(&mut self, state: &mut FileState<K>, count: u32)
        requires free { count ≤ count_by is_free state.old.pages }
        requires room { length self.old + count ≤ MOST_NEW_PAGES }
        ensures pages { self.new ≡ self.old ++ take count (free_pages state.old.pages) }
        ensures books { state.new
            ≡ claimed_books client (take count (free_pages state.old.pages)) state.old }
    {
        let end = self.count + count as usize;
        claim_between(&mut self.pages, self.count, end, state);
        self.count = end;
    }
}
