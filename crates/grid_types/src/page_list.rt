//! Lists of page numbers.
ghost use Rattle.std.specs.Prelude.{◌≡◌, ◌<◌, ◌≤◌, ◌^◌, ◌++◌, ◌∷◌, [], ℕ, length, slice_index, slice_set, OnOk, IfOk, OnErr};

use std::alloc::{AllocError, Global};
use std::marker::Model;

/// Page numbers, in order. Its own type, so that contracts see it as a list with room.
#[derive(Drop)]
pub struct PageList {
    list: Vec<u32>,
}

impl Model for PageList {
    ghost use Rattle.std.specs.Prelude.{vec_capacity};
    ghost use Rattle.grid_types.specs.PageLists.{RoomyPages};

    ghost Value = { RoomyPages };

    ghost view = { λ p. record { items = p.list.items; room = vec_capacity p.list } };
}

/// The same numbers. Behind a slice each is known to be in its type's range.
fn in_range(numbers: &[u32]) -> &[u32]
    ensures value { result.now ≡ numbers.now }
    ensures in_range { (i : ℕ) → slice_index numbers.now i < 2 ^ 32 }
{
    numbers
}

impl PageList {
    /// No pages, and no room.
    pub fn new(alloc: Global) -> PageList
        ensures { result.items ≡ [] }
    {
        PageList {
            list: Vec::new(alloc),
        }
    }

    /// No pages, with room for so many. Its only error is want of memory.
    pub fn with_room(alloc: Global, room: usize) -> Result<PageList, AllocError>
        ensures items { IfOk result (λ p. p.items ≡ []) }
        ensures room { IfOk result (λ p. p.room ≡ room) }
    {
        let list = Vec::with_capacity(alloc, room)?;
        Ok(PageList { list })
    }

    /// The pages of that list.
    pub fn of(list: Vec<u32>) -> PageList
        ensures { result.items ≡ list.items }
    {
        PageList { list }
    }

    /// Adds a page at the end. Its only error is want of memory, which does not come where there is room.
    pub fn push(&mut self, page: u32) -> Result<(), AllocError>
        ensures added { OnOk result (self.new.items ≡ self.old.items ++ page ∷ []) }
        ensures refused { OnErr result (self.new.items ≡ self.old.items) }
        ensures full { OnErr result (self.old.room ≤ length self.old.items) }
        ensures room { self.old.room ≤ self.new.room }
    {
        match self.list.push(page) {
            Ok(()) => Ok(()),
            Err(_) => Err(AllocError),
        }
    }

    /// Puts another page at a place.
    pub fn set(&mut self, place: usize, page: u32)
        requires { place < length self.old.items }
        ensures items { self.new.items ≡ slice_set self.old.items place page }
        ensures room { self.new.room ≡ self.old.room }
    {
        self.list[place] = page;
    }

    /// Takes all pages out; the room stays.
    pub fn clear(&mut self)
        ensures items { self.new.items ≡ [] }
        ensures room { self.new.room ≡ self.old.room }
    {
        self.list.clear();
    }

    /// Makes this list the other one, for which it has room. It takes no memory.
    pub fn copy_from(&mut self, other: &PageList)
        requires { length other.now.items ≤ self.old.room }
        ensures items { self.new.items ≡ other.now.items }
        ensures room { self.old.room ≤ self.new.room }
    {
        self.list.clear();
        match self.list.extend_from_slice(&other.list) {
            Ok(()) => {}
            Err(_) => unreachable!(),
        }
    }

    pub fn list(&self) -> &[u32]
        ensures value { result.now ≡ self.now.items }
        ensures in_range { (i : ℕ) → slice_index self.now.items i < 2 ^ 32 }
    {
        in_range(&self.list)
    }
}
