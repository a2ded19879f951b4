//! What is counted of a store.
ghost use Rattle.std.specs.Prelude.{◌≡◌, IsTrue, true, false};
ghost use Rattle.grid_types.specs.declared.request.Reply.TheVariants.{Stood};
ghost use Rattle.grid_types.specs.declared.request.Request.TheVariants.{Stat as AskStat};
ghost use Rattle.grid_model.specs.Lone.{State};
ghost use Rattle.file_books.specs.Effects.{swept_books};
ghost use Rattle.grid_file.specs.Keeping.{KeepsReading};
ghost use Rattle.client_sessions.specs.Points.{Point};
ghost use Rattle.grid_store.specs.Stores.{IsStoreAlone, IsStoreAt, KeepsStore, stat_of};
ghost use Rattle.grid_store.specs.Answered.{IsAnswered, IsAnsweredLone};

use crate::store::Store;
use disk_trait::Disk;
use grid_file::GridFile;
use grid_types::{Answer, Stat};

/// What is counted of an open file, which is swept first where it may be.
fn count_file<const K: usize, D: Disk>(file: &mut GridFile<K, D>, stopped: bool) -> Answer<Stat>
    ensures value { result ≡ stat_of file.new.books }
    ensures swept { stopped ≡ false
        → file.new ≡ record file.old { books = swept_books file.old.books } }
    ensures same { stopped ≡ true → file.new ≡ file.old }
    ensures disk { file.new.disk ≡ file.old.disk }
    ensures reading { KeepsReading file.old.books file.new.books }
{
    if !stopped {
        file.sweep();
    }
    let state = file.state();
    Answer {
        at: state.front(),
        value: state.stat(),
    }
}

impl<const K: usize, D: Disk> Store<K, D> {
    /// What is counted at the front: records, cells, buckets, and the data pages that hold nothing, neither now nor for the
    /// root. Nothing is read.
    pub fn stat(&mut self) -> Answer<Stat>
        ensures answers { IsTrue (D.honest self.old.file.disk)
            → (p : Point K)
            → IsStoreAt D.Disk self.old p
            → IsAnswered D.Disk p AskStat (Stood result) self.old self.new }
        ensures lone { (s : State K)
            → IsStoreAlone D.Disk self.old s
            → IsAnsweredLone D.Disk s AskStat (Stood result) self.old self.new }
        ensures value { result ≡ stat_of self.new.file.books }
        ensures same { KeepsStore D.Disk self.old self.new }
    {
        count_file(&mut self.file, self.stop.is_some())
    }
}
