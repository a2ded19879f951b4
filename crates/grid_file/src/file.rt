//! A file with one client as one value.
ghost use Rattle.std.specs.Prelude.{◌≡◌, ◌≤◌, ◌+◌, ◌*◌, length};
ghost use Rattle.std.specs.List.{count_by};
ghost use Rattle.grid_types.specs.declared.sizes.TheConstants.{PAGE_BYTES};
ghost use Rattle.grid_types.specs.Shapes.{file_pages};
ghost use Rattle.page_states.specs.States.{is_free};
ghost use Rattle.page_states.specs.Changes.{ArePublishable};
ghost use Rattle.file_state.specs.Unused.{IsLeastUnused};
ghost use Rattle.grid_file.specs.declared.claimed.TheConstants.{MOST_NEW_PAGES};
ghost use Rattle.grid_file.specs.Files.{IsOpenFile, opened_file, with_claim, without_claim};

use crate::claimed::{CLIENT, Claimed};
use crate::written::{Written, nothing};
use disk_trait::Disk;
use file_state::FileState;
use picked::Picked;
use std::marker::{Brand, Model};

/// A file with K attributes: its disk, what memory keeps of it, and the pages that are claimed for the change under way,
/// of which the first are written.
#[derive(Drop)]
pub struct GridFile<const K: usize, D: Disk> {
    pub(crate) disk: Box<D>,
    pub(crate) state: FileState<K>,
    pub(crate) claimed: Claimed,
    pub(crate) done: usize,
    pub(crate) written: Picked<Written>,
}

impl<const K: usize, D: Disk> Model for GridFile<K, D> {
    ghost use Rattle.std.specs.Prelude.{◌≡◌, length};
    ghost use Rattle.grid_file.specs.Files.{OpenFile, IsOpenFile};

    ghost Value = { OpenFile D };

    ghost view = { λ f. record {
      disk = f.disk.value;
      books = f.state;
      claimed = f.claimed;
      written = f.written.value.pages;
    } };

    ghost invariant = { λ f. IsOpenFile K D.Disk (record {
      disk = f.disk.value;
      books = f.state;
      claimed = f.claimed;
      written = f.written.value.pages;
    }) × (f.done ≡ length f.written.value.pages) };
}

impl<const K: usize, D: Disk> GridFile<K, D> {
    /// The file of a disk and a state, with no change under way. It takes no memory.
    pub fn of(disk: Box<D>, state: FileState<K>) -> GridFile<K, D>
        requires { file_pages state.shape * PAGE_BYTES ≤ D.extent disk.value }
        ensures { result ≡ opened_file disk.value state.entry }
    {
        // The books are those of a file with K attributes, as the state knows.
        let _geometry = state.geometry();
        GridFile {
            disk,
            state,
            claimed: Claimed::none(),
            done: 0,
            written: nothing::<Brand>(),
        }
    }

    /// What memory keeps of the file.
    pub fn state(&self) -> &FileState<K>
        ensures books { result.now ≡ self.now.books }
        ensures sound { IsOpenFile K D.Disk self.now }
    {
        &self.state
    }

    /// The least bucket number that has no page at the front. It is remembered, so that the numbers below it are not looked
    /// at again.
    pub fn least_unused(&mut self) -> u32
        ensures least { IsLeastUnused self.old.books result }
        ensures same { self.new ≡ self.old }
    {
        self.state.least_unused()
    }

    /// The pages that are claimed for the change under way, in the order in which they are written.
    pub fn claimed(&self) -> &[u32]
        ensures pages { result.now ≡ self.now.claimed }
        ensures publishable { ArePublishable self.now.claimed self.now.books.pages }
    {
        self.claimed.list()
    }

    /// The disk, the state and the claimed pages, for a call that needs them apart. It takes no memory, and neither does `of`,
    /// by which disk and state become a file again.
    pub fn into_parts(self) -> (Box<D>, FileState<K>, Claimed)
        ensures disk { result.0.value ≡ self.disk }
        ensures books { result.1 ≡ self.books }
        ensures claimed { result.2 ≡ self.claimed }
        ensures sound { IsOpenFile K D.Disk self }
    {
        (self.disk, self.state, self.claimed)
    }

    /// A change begins: so many pages more are claimed for it, and nothing is written.
    pub fn claim(&mut self, count: u32)
        requires free { count ≤ count_by is_free self.old.books.pages }
        requires room { length self.old.claimed + count ≤ MOST_NEW_PAGES }
        ensures value { self.new ≡ with_claim count self.old }
        ensures count { length self.new.claimed ≡ length self.old.claimed + count }
    {
        self.claimed.claim(&mut self.state, count);
        self.done = 0;
        self.written = nothing::<Brand>();
    }

    /// No change is under way: what the client claimed and did not publish is free again.
    pub fn give_back(&mut self)
        ensures { self.new ≡ without_claim self.old }
    {
        self.state.give_back(CLIENT);
        self.claimed = Claimed::none();
        self.done = 0;
        self.written = nothing::<Brand>();
    }
}
