//! What becomes of an open file's books: a sweep, a new session, and a change that is published.
ghost use Rattle.std.specs.Prelude.{◌≡◌, ◌<◌, ◌^◌};
ghost use Rattle.file_books.specs.Effects.{published_books, session_books, swept_books, IsPublishable};
ghost use Rattle.file_state.specs.Memories.{publishing_of};
ghost use Rattle.grid_file.specs.Files.{opened_file};
ghost use Rattle.grid_file.specs.Keeping.{KeepsReading};

use crate::claimed::Claimed;
use crate::file::GridFile;
use crate::written::nothing;
use disk_trait::Disk;
use file_state::Change;
use std::marker::Brand;

impl<const K: usize, D: Disk> GridFile<K, D> {
    /// Frees the replaced pages that no root needs.
    pub fn sweep(&mut self)
        ensures value { self.new ≡ record self.old { books = swept_books self.old.books } }
        ensures reading { KeepsReading self.old.books self.new.books }
    {
        self.state.sweep();
        let _geometry = self.state.geometry();
    }

    /// A new session begins.
    pub fn begin_session(&mut self)
        requires { self.old.books.session < 2 ^ 63 }
        ensures { self.new ≡ record self.old { books = session_books self.old.books } }
    {
        self.state.begin_session();
        let _geometry = self.state.geometry();
    }

    /// The change under way is published at the next place, without a batch: its new pages are those that are claimed.
    pub fn publish(&mut self, change: &Change<K>)
        requires { IsPublishable self.old.books (publishing_of change.now self.old.claimed) }
        ensures { self.new
            ≡ opened_file self.old.disk
            (published_books self.old.books (publishing_of change.now self.old.claimed)) }
    {
        self.state.publish(change, self.claimed.list());
        let _geometry = self.state.geometry();
        self.claimed = Claimed::none();
        self.done = 0;
        self.written = nothing::<Brand>();
    }
}
