//! What makes an open file's changes last: the commit of an update, and a root step.
ghost use Rattle.std.specs.Prelude.{◌≡◌, ◌<◌, ◌≤◌, ◌+◌, ◌^◌, ℕ, List, [], Option, OnOk, OnErr};
ghost use Rattle.grid_types.specs.declared.sizes.TheConstants.{MOST_UPDATES};
ghost use Rattle.disk_trait.specs.Calls.{Changes, IsSynced, HasCauses};
ghost use Rattle.disk_trait.specs.Causes.{HasCause};
ghost use Rattle.grid_model.specs.Lawful.{IsLoggedUpdate};
ghost use Rattle.grid_model.specs.Layouts.{BucketBox};
ghost use Rattle.grid_model.specs.Lone.{State, published, root};
ghost use Rattle.journal_slots.specs.Committing.{BatchStep};
ghost use Rattle.file_roots.specs.Refusals.{MayRefuseClosing};
ghost use Rattle.file_images.specs.Kept.{Kept};
ghost use Rattle.file_images.specs.Leads.{Standing, behind};
ghost use Rattle.file_images.specs.Meets.{Meets};
ghost use Rattle.file_books.specs.Effects.{published_books, committed_books, used_of, IsPublishable};
ghost use Rattle.file_state.specs.Claims.{given_back_books};
ghost use Rattle.file_state.specs.Memories.{publishing_of};
ghost use Rattle.file_state.specs.Roots.{HasRoom};
ghost use Rattle.file_standing.specs.Files.{IsAlone};
ghost use Rattle.file_standing.specs.Open.{IsOpenAt, IsOpenInSession, IsOpenAlone, StaysStanding};
ghost use Rattle.file_standing.specs.Steps.{batch_of_one, with_fresh};
ghost use Rattle.commits.specs.Commits.{logged, IsCommitting, StaysOrMoves, IsDoubtful};
ghost use Rattle.checkpoints.specs.Checkpoints.{AreBooksAfter, IsRooted, StaysOpen};
ghost use Rattle.checkpoints.specs.Disks.{KeepsLength};
ghost use Rattle.grid_file.specs.Files.{client, opened_file};
ghost use Rattle.grid_file.specs.Keeping.{KeepsReading};

use crate::claimed::Claimed;
use crate::file::GridFile;
use crate::written::nothing;
use checkpoints::checkpoint;
use commits::commit_update;
use disk_trait::{Disk, DiskFailed, Steps};
use file_state::Change;
use grid_types::{Refusal, Update};
use journal_slots::Batch;
use linear_scales::Root;
use std::marker::Brand;
use std::sync::ledger::Ledger;

impl<const K: usize, D: Disk> GridFile<K, D> {
    /// Commits one update, whose new pages were written on the claimed pages, at the next place, and publishes its change.
    /// `batch` is room, and is overwritten. After a failure the claimed pages are given back, readings go on, and whether
    /// the update counts is in doubt until the file is opened again.
    pub fn commit(
        &mut self,
        update: &Update<K>,
        change: &Change<K>,
        batch: &mut Batch<K>,
    ) -> Result<(), DiskFailed>
        requires publishable { IsPublishable self.old.books
            (publishing_of change.now self.old.claimed) }
        requires logged { IsLoggedUpdate (logged update.now change.now.note) }
        requires inside { used_of self.old.books self.old.books.half
            < self.old.books.shape.slots }
        requires place { self.old.books.front + MOST_UPDATES < 2 ^ 63 }
        ensures moments { (k : Kept K) (m : Standing K) (e : ℕ × BucketBox K)
            (fresh : List (Option (List ℕ)))
            → IsCommitting self.old.books k m e update.now
            (publishing_of change.now self.old.claimed) fresh
            → Meets D.Disk (with_fresh k fresh) self.old.disk
            → StaysOrMoves D.Disk m
            (batch_of_one self.old.books update.now change.now.note)
            self.old.disk self.new.disk }
        ensures committed { (k : Kept K) (m : Standing K) (e : ℕ × BucketBox K)
            (fresh : List (Option (List ℕ)))
            → IsCommitting self.old.books k m e update.now
            (publishing_of change.now self.old.claimed) fresh
            → Meets D.Disk (with_fresh k fresh) self.old.disk
            → OnOk result (IsOpenInSession D.Disk self.new.books
            (behind m (batch_of_one self.old.books update.now change.now.note))
            self.new.disk) }
        ensures alone { (k : Kept K) (m : Standing K) (e : ℕ × BucketBox K)
            (fresh : List (Option (List ℕ))) (s : State K)
            → IsCommitting self.old.books k m e update.now
            (publishing_of change.now self.old.claimed) fresh
            → IsAlone self.old.books k m s
            → Meets D.Disk (with_fresh k fresh) self.old.disk
            → OnOk result (IsOpenAlone D.Disk self.new.books
            (behind m (batch_of_one self.old.books update.now change.now.note))
            (published e update.now change.now.note s) self.new.disk) }
        ensures doubted { (k : Kept K) (m : Standing K) (e : ℕ × BucketBox K)
            (fresh : List (Option (List ℕ)))
            → IsCommitting self.old.books k m e update.now
            (publishing_of change.now self.old.claimed) fresh
            → Meets D.Disk (with_fresh k fresh) self.old.disk
            → OnErr result (IsDoubtful D.Disk self.new.books m
            (batch_of_one self.old.books update.now change.now.note) self.new.disk) }
        ensures value { OnOk result (self.new
            ≡ opened_file self.new.disk (committed_books
            (published_books self.old.books (publishing_of change.now self.old.claimed)))) }
        ensures given_back { OnErr result (self.new
            ≡ opened_file self.new.disk (given_back_books client self.old.books)) }
        ensures durable { OnOk result (IsSynced D.Disk self.new.disk) }
        ensures changes { Changes D.Disk
            (BatchStep self.old.books.shape self.old.books.half
            (used_of self.old.books self.old.books.half)
            (batch_of_one self.old.books update.now change.now.note))
            self.old.disk self.new.disk }
        ensures cause { HasCause (D.write_count self.old.disk) (D.write_count self.new.disk)
            result }
    {
        let _geometry = self.state.geometry();
        let slot = self.state.used(self.state.half());
        let disk = &mut *self.disk;
        let pages = self.claimed.list();
        match commit_update(disk, &mut self.state, slot, update, change, pages, batch) {
            Ok(()) => {
                let _geometry = self.state.geometry();
                self.claimed = Claimed::none();
                self.done = 0;
                self.written = nothing::<Brand>();
                Ok(())
            }
            Err(DiskFailed) => {
                self.give_back();
                Err(DiskFailed)
            }
        }
    }

    /// A root step, between two changes. `next` is made the next root and written at the front, the pages that roots have no
    /// need of are freed, and the half of the journal that is not current is cleared. It takes no memory. After a failure
    /// the file goes on from where it stands, and the step may be tried again.
    pub fn checkpoint<L: Ledger>(
        &mut self,
        next: &mut Root<K>,
        steps: &mut Steps<L>,
    ) -> Result<(), Refusal>
        requires room { HasRoom self.old.books.shape next.old }
        requires more { self.old.books.number < 2 ^ 63 }
        requires none { self.old.claimed ≡ [] }
        ensures moments { (m : Standing K)
            → IsOpenAt D.Disk self.old.books m self.old.disk
            → StaysStanding D.Disk m self.old.disk self.new.disk }
        ensures stands { (m : Standing K)
            → IsOpenAt D.Disk self.old.books m self.old.disk
            → OnOk result (IsOpenInSession D.Disk self.new.books m self.new.disk) }
        ensures rooted { (m : Standing K)
            → IsOpenAt D.Disk self.old.books m self.old.disk
            → OnOk result (IsRooted D.Disk self.new.books m self.new.disk) }
        ensures alone { (m : Standing K) (s : State K)
            → IsOpenAlone D.Disk self.old.books m s self.old.disk
            → OnOk result (IsOpenAlone D.Disk self.new.books m (root s) self.new.disk) }
        ensures behind { (m : Standing K)
            → OnErr result (StaysOpen D.Disk self.old.books self.new.books m
            self.old.disk self.new.disk) }
        ensures books { AreBooksAfter result self.old.books self.new.books }
        ensures same { self.new ≡ opened_file self.new.disk self.new.books }
        ensures reading { KeepsReading self.old.books self.new.books }
        ensures room { HasRoom self.old.books.shape next.new }
        ensures durable { OnOk result (IsSynced D.Disk self.new.disk) }
        ensures changes { Changes D.Disk KeepsLength self.old.disk self.new.disk }
        ensures causes { HasCauses D.Disk MayRefuseClosing self.old.disk self.new.disk result }
        ensures ticks { steps.new ≡ steps.old + 1 }
    {
        let outcome = checkpoint(&mut *self.disk, &mut self.state, next, steps);
        let _geometry = self.state.geometry();
        outcome
    }
}
