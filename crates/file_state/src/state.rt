//! The state of a file as one value: its books.
ghost use Rattle.std.specs.Prelude.{◌≡◌, ◌<◌, ◌≤◌, ◌^◌, ◌∷◌, ◌↔◌, ℕ, [], length, take, replicate, slice_index, IsTrue, IsSome, IfOk, IfSome, IfNone, false};
ghost use Rattle.std.specs.List.{count_by, list_any};
ghost use Rattle.grid_types.specs.declared.shape.Stat.{Stat};
ghost use Rattle.grid_types.specs.Halves.{half_number};
ghost use Rattle.grid_model.specs.Cells.{cells};
ghost use Rattle.linear_scales.specs.Limited.{scales_of, limits_of};
ghost use Rattle.linear_scales.specs.Roots.{IsRoot, root_fields_of, whole_of};
ghost use Rattle.page_states.specs.States.{is_free};
ghost use Rattle.page_states.specs.Effects.{free_pages, is_of_roots, IsPageAt};
ghost use Rattle.file_books.specs.Books.{AreBooksOf, has_page};
ghost use Rattle.file_books.specs.Effects.{opened_books, swept_books, published_books, committed_books, session_books, closed_books, turned_books, rooted_books, cleaned_books, used_of, IsPublishable};
ghost use Rattle.file_state.specs.Memories.{publishing_of};
ghost use Rattle.file_state.specs.Claims.{claimed_books, given_back_books};
ghost use Rattle.file_state.specs.Roots.{HasRoom, TellsBooks, next_fields};
ghost use Rattle.file_state.specs.Unused.{IsLeastUnused};

use crate::change::Change;
use crate::memory::Memory;
use crate::{keeping, opening, publishing, reading, rooting};
use grid_types::{Geometry, Half, Owner, Stat};
use linear_scales::{Root, Scales};
use std::alloc::{AllocError, Global};
use std::marker::Model;

/// What memory keeps of a file with K attributes.
#[derive(Drop)]
pub struct FileState<const K: usize> {
    memory: Memory<K>,
}

impl<const K: usize> Model for FileState<K> {
    ghost use Rattle.file_books.specs.Books.{Books};
    ghost use Rattle.file_state.specs.Memories.{books_of, IsMemory};

    ghost Value = { Books };

    ghost view = { λ s. books_of s.memory };

    ghost invariant = { λ s. IsMemory s.memory };
}

impl<const K: usize> FileState<K> {
    /// The state of a file whose newest root is this one, and whose journal has so many used slots. All memory that is ever
    /// needed is taken here.
    pub fn open(
        alloc: Global,
        geometry: Geometry,
        root: &Root<K>,
        used: [u32; 2],
    ) -> Result<FileState<K>, AllocError>
        requires attributes { geometry.shape.k ≡ K }
        requires root { IsRoot geometry.shape root.now }
        requires limits { limits_of root.now.scales ≡ replicate K geometry.shape.boundaries }
        requires first { slice_index used 0 ≤ geometry.shape.slots }
        requires second { slice_index used 1 ≤ geometry.shape.slots }
        ensures { IfOk result (λ s. s
            ≡ opened_books geometry.shape (whole_of root.now)
            (slice_index used 0) (slice_index used 1)) }
    {
        Ok(FileState {
            memory: opening::open(alloc, geometry, root, used)?,
        })
    }

    /// Where the pages of the file are.
    pub fn geometry(&self) -> Geometry
        ensures shape { result.shape ≡ self.now.shape }
        ensures books { AreBooksOf K self.now }
    {
        self.memory.geometry
    }

    pub fn session(&self) -> u64
        ensures { result ≡ self.now.session }
    {
        self.memory.counts.session
    }

    /// The place of the last update.
    pub fn front(&self) -> u64
        ensures { result ≡ self.now.front }
    {
        self.memory.counts.front
    }

    pub fn records(&self) -> u64
        ensures { result ≡ self.now.records }
    {
        self.memory.counts.records
    }

    pub fn buckets(&self) -> u32
        ensures { result ≡ self.now.buckets }
    {
        self.memory.counts.buckets
    }

    /// The number of the newest root.
    pub fn number(&self) -> u64
        ensures { result ≡ self.now.number }
    {
        self.memory.roots.number
    }

    /// The place of the newest root.
    pub fn rooted_at(&self) -> u64
        ensures { result ≡ self.now.rooted_at }
    {
        self.memory.roots.place
    }

    /// The current half of the journal.
    pub fn half(&self) -> Half
        ensures { half_number result ≡ self.now.half }
    {
        self.memory.journal.half
    }

    /// How many slots of a half are used.
    pub fn used(&self, half: Half) -> u32
        ensures { result ≡ used_of self.now (half_number half) }
    {
        reading::used(&self.memory, half)
    }

    /// The next slot of the current half, if it has one.
    pub fn slot(&self) -> Option<u32>
        ensures next { IfSome result (λ i. i ≡ used_of self.now self.now.half) }
        ensures within { IfSome result (λ i. i < self.now.shape.slots) }
        ensures full { IfNone result (used_of self.now self.now.half ≡ self.now.shape.slots) }
    {
        reading::next_slot(&self.memory)
    }

    /// The boundaries of each attribute.
    pub fn scales(&self) -> &Scales<K>
        ensures scales { scales_of result.now ≡ self.now.scales }
        ensures limits { limits_of result.now ≡ replicate K self.now.shape.boundaries }
    {
        &self.memory.scales
    }

    /// How many cells the directory has.
    pub fn cells(&self) -> u32
        ensures { result ≡ cells self.now.scales }
    {
        reading::cells(&self.memory)
    }

    /// How many data pages are free.
    pub fn free(&self) -> u32
        ensures { result ≡ count_by is_free self.now.pages }
    {
        self.memory.pages.free()
    }

    /// What is counted.
    pub fn stat(&self) -> Stat
        ensures { result ≡ record {
          records = self.now.records;
          cells = cells self.now.scales;
          buckets = self.now.buckets;
          free = count_by is_free self.now.pages;
        } }
    {
        Stat {
            records: self.records(),
            cells: self.cells(),
            buckets: self.buckets(),
            free: self.free(),
        }
    }

    /// The page of an owner at the front.
    pub fn page_of(&self, owner: Owner) -> Option<u32>
        ensures found { IfSome result (λ p. IsPageAt owner self.now.front self.now.pages p) }
        ensures there { IsSome result → IsTrue (has_page self.now owner) }
        ensures none { IfNone result (has_page self.now owner ≡ false) }
    {
        reading::page_of(&self.memory, owner)
    }

    /// Whether an owner has a page at the front.
    pub fn has_page(&self, owner: Owner) -> bool
        ensures { result ≡ has_page self.now owner }
    {
        match reading::page_of(&self.memory, owner) {
            Some(_) => true,
            None => false,
        }
    }

    /// The least bucket number that has no page at the front. It is remembered, so that the numbers below it are not looked
    /// at again.
    pub fn least_unused(&mut self) -> u32
        ensures least { IsLeastUnused self.old result }
        ensures same { self.new ≡ self.old }
    {
        reading::find_unused(&mut self.memory)
    }

    /// Whether a newer root would free a page, where nobody else needs one.
    pub fn would_free(&self) -> bool
        ensures { result ≡ list_any (is_of_roots [] (self.now.rooted_at ∷ [])) self.now.pages }
    {
        self.memory
            .pages
            .would_free(&[], &[self.memory.roots.place])
    }

    /// Frees the replaced pages that no root needs.
    pub fn sweep(&mut self)
        ensures { self.new ≡ swept_books self.old }
    {
        keeping::sweep(&mut self.memory);
    }

    /// Pages for a change of the seat, one for each place in `out`: the free ones of the lowest numbers.
    pub fn claim(&mut self, seat: u32, out: &mut [u32])
        requires { length out.old ≤ count_by is_free self.old.pages }
        ensures pages { out.new ≡ take (length out.old) (free_pages self.old.pages) }
        ensures books { self.new ≡ claimed_books seat out.new self.old }
    {
        keeping::claim(&mut self.memory, seat, out);
    }

    /// What a seat claimed and did not publish is free again.
    pub fn give_back(&mut self, seat: u32)
        ensures { self.new ≡ given_back_books seat self.old }
    {
        keeping::give_back(&mut self.memory, seat);
    }

    /// A change is published at the next place. Its new pages are told in the order in which they were written.
    pub fn publish(&mut self, change: &Change<K>, pages: &[u32])
        requires { IsPublishable self.old (publishing_of change.now pages.now) }
        ensures { self.new ≡ published_books self.old (publishing_of change.now pages.now) }
    {
        publishing::publish(&mut self.memory, change, pages);
    }

    /// A batch was committed on the next slot of the current half.
    pub fn commit_slot(&mut self)
        requires { used_of self.old self.old.half < self.old.shape.slots }
        ensures { self.new ≡ committed_books self.old }
    {
        keeping::commit_slot(&mut self.memory);
    }

    /// A new session begins.
    pub fn begin_session(&mut self)
        requires { self.old.session < 2 ^ 63 }
        ensures { self.new ≡ session_books self.old }
    {
        keeping::begin_session(&mut self.memory);
    }

    /// The header page that does not have the newest root is closed: none is tried there.
    pub fn closed(&mut self)
        ensures { self.new ≡ closed_books self.old }
    {
        keeping::closed(&mut self.memory);
    }

    /// A root is to be written at the front. The halves' roles are exchanged where the other one is clear.
    pub fn turn(&mut self)
        ensures { self.new ≡ turned_books self.old }
    {
        keeping::turn(&mut self.memory);
    }

    /// That root stands.
    pub fn rooted(&mut self)
        requires { self.old.number < 2 ^ 63 }
        ensures { self.new ≡ rooted_books self.old }
    {
        keeping::rooted(&mut self.memory);
    }

    /// The half that is not current is clear. A full one gives its role to it.
    pub fn cleaned(&mut self)
        ensures { self.new ≡ cleaned_books self.old }
    {
        keeping::cleaned(&mut self.memory);
    }

    /// Makes a root the next one, with the pages that are current at the front. It takes no memory.
    pub fn copy_root(&self, root: &mut Root<K>)
        requires room { HasRoom self.now.shape root.old }
        requires number { self.now.number < 2 ^ 63 }
        ensures room { HasRoom self.now.shape root.new }
        ensures root { IsRoot self.now.shape root.new }
        ensures fields { root_fields_of root.new ≡ next_fields self.now }
        ensures told { TellsBooks self.now root.new }
    {
        rooting::copy_root(&self.memory, root);
    }
}
