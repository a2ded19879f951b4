//! The changes of a store: puts, removes and checkpoints.
ghost use Rattle.std.specs.Prelude.{◌≡◌, ◌≤◌, ◌+◌, ℕ, Some, None, Err, IsTrue, IfOk, OnOk, IfErr};
ghost use Rattle.grid_types.specs.declared.refusal.Refusal.TheVariants.{Stopped, Worn};
ghost use Rattle.grid_types.specs.declared.request.Reply.TheVariants as told;
ghost use Rattle.grid_types.specs.declared.request.Request.TheVariants as ask;
ghost use Rattle.grid_types.specs.declared.update.Update.TheVariants as update_of;
ghost use Rattle.disk_trait.specs.Calls.{Changes, HasCauses, IsSynced};
ghost use Rattle.grid_model.specs.Lone.{State};
ghost use Rattle.checkpoints.specs.Disks.{KeepsLength};
ghost use Rattle.client_sessions.specs.Points.{Point};
ghost use Rattle.client_sessions.specs.Told.{worn_from};
ghost use Rattle.durable_updates.specs.Points.{reply_to, request_of};
ghost use Rattle.durable_updates.specs.Answers.{IsPlaced, UnlessFailed};
ghost use Rattle.durable_updates.specs.Causes.{IsRootRefusal, IsUpdateCause};
ghost use Rattle.grid_store.specs.Stores.{IsStoreAt, IsStoreAlone};
ghost use Rattle.grid_store.specs.Answered.{IsAnswered, IsAnsweredLone, told_by};
ghost use Rattle.grid_store.specs.Changing.{IsRootedFront, KeepsFront, StoreGoesOn, stop_after};

use crate::store::Store;
use disk_trait::{Disk, Steps};
use durable_updates::{step_root, update_file};
use grid_types::{Answer, Data, Key, Record, Refusal, Update};
use std::sync::ledger::Ledger;

/// The count of failed writes that stops a store which was not, after an update that came to this.
fn stop_of(outcome: &Result<Answer<Option<Data>>, Refusal>) -> Option<u64>
    ensures { result ≡ stop_after None outcome.now }
{
    match outcome {
        Err(Refusal::Unsure { faults, .. }) => Some(*faults),
        _ => None,
    }
}

impl<const K: usize, D: Disk> Store<K, D> {
    /// An update: refused where the store is stopped. Where its batch fails, the store is stopped from then on.
    fn update<L: Ledger>(
        &mut self,
        update: &Update<K>,
        steps: &mut Steps<L>,
    ) -> Result<Answer<Option<Data>>, Refusal>
        ensures answers { IsTrue (D.honest self.old.file.disk)
            → (p : Point K)
            → IsStoreAt D.Disk self.old p
            → IsAnswered D.Disk p
            (request_of update.now) (reply_to update.now result) self.old self.new }
        ensures lone { IsTrue (D.honest self.old.file.disk)
            → (s : State K)
            → IsStoreAlone D.Disk self.old s
            → UnlessFailed result (IsAnsweredLone D.Disk s
            (request_of update.now) (reply_to update.now result) self.old self.new) }
        ensures stopped { (n : ℕ)
            → self.old.stop ≡ Some n
            → (result ≡ Err (Stopped n self.old.opened)) × (self.new ≡ self.old) }
        ensures worn { self.old.stop ≡ None
            → worn_from ≤ self.old.file.books.front
            → (result ≡ Err (Worn self.old.file.books.front)) × (self.new.file ≡ self.old.file) }
        ensures placed { IsPlaced update.now
            self.old.file.books.front self.new.file.books.front result }
        ensures refused { self.old.stop ≡ None
            → IfErr result (IsUpdateCause D.Disk update.now
            self.old.file self.new.file self.new.room) }
        ensures stop { self.new.stop ≡ stop_after self.old.stop result }
        ensures same { StoreGoesOn self.old self.new }
        ensures changes { Changes D.Disk KeepsLength self.old.file.disk self.new.file.disk }
        ensures least { steps.old ≤ steps.new }
    {
        if let Some(faults) = self.stop {
            return Err(Refusal::Stopped {
                faults,
                opened: self.opened,
            });
        }
        let _state = self.file.state();
        let outcome = update_file(
            &mut self.file,
            &mut self.next,
            &mut self.room,
            &mut *self.batch,
            update,
            steps,
        );
        self.stop = stop_of(&outcome);
        outcome
    }

    /// From now on the key has this data: where it is answered, the put has its place, it is on the disk, and the answer tells
    /// what the key had. After `Unsure` it is in the file as a whole or not at all, and the next opening tells which. After any
    /// other refusal it is as if it had not been asked, but for a root step that may have been made. It takes no memory.
    pub fn put<L: Ledger>(
        &mut self,
        row: &Record<K>,
        steps: &mut Steps<L>,
    ) -> Result<Answer<Option<Data>>, Refusal>
        ensures answers { IsTrue (D.honest self.old.file.disk)
            → (p : Point K)
            → IsStoreAt D.Disk self.old p
            → IsAnswered D.Disk p (ask.Put row.now) (told_by told.Put result) self.old self.new }
        ensures lone { IsTrue (D.honest self.old.file.disk)
            → (s : State K)
            → IsStoreAlone D.Disk self.old s
            → UnlessFailed result (IsAnsweredLone D.Disk s
            (ask.Put row.now) (told_by told.Put result) self.old self.new) }
        ensures stopped { (n : ℕ)
            → self.old.stop ≡ Some n
            → (result ≡ Err (Stopped n self.old.opened)) × (self.new ≡ self.old) }
        ensures worn { self.old.stop ≡ None
            → worn_from ≤ self.old.file.books.front
            → (result ≡ Err (Worn self.old.file.books.front)) × (self.new.file ≡ self.old.file) }
        ensures placed { IsPlaced (update_of.Put row.now)
            self.old.file.books.front self.new.file.books.front result }
        ensures refused { self.old.stop ≡ None
            → IfErr result (IsUpdateCause D.Disk (update_of.Put row.now)
            self.old.file self.new.file self.new.room) }
        ensures stop { self.new.stop ≡ stop_after self.old.stop result }
        ensures same { StoreGoesOn self.old self.new }
        ensures changes { Changes D.Disk KeepsLength self.old.file.disk self.new.file.disk }
        ensures least { steps.old ≤ steps.new }
    {
        let _state = self.file.state();
        let row = Record {
            key: row.key,
            value: row.value.copy(),
        };
        self.update(&Update::Put(row), steps)
    }

    /// From now on the key is absent: where it is answered, the remove is on the disk, and the answer tells what the key had.
    /// A key that is absent is told as by a reading, and nothing is written. Refusals are those of a put, and none for want
    /// of a cut.
    pub fn remove<L: Ledger>(
        &mut self,
        key: &Key<K>,
        steps: &mut Steps<L>,
    ) -> Result<Answer<Option<Data>>, Refusal>
        ensures answers { IsTrue (D.honest self.old.file.disk)
            → (p : Point K)
            → IsStoreAt D.Disk self.old p
            → IsAnswered D.Disk p
            (ask.Remove key.now) (told_by told.Removed result) self.old self.new }
        ensures lone { IsTrue (D.honest self.old.file.disk)
            → (s : State K)
            → IsStoreAlone D.Disk self.old s
            → UnlessFailed result (IsAnsweredLone D.Disk s
            (ask.Remove key.now) (told_by told.Removed result) self.old self.new) }
        ensures stopped { (n : ℕ)
            → self.old.stop ≡ Some n
            → (result ≡ Err (Stopped n self.old.opened)) × (self.new ≡ self.old) }
        ensures worn { self.old.stop ≡ None
            → worn_from ≤ self.old.file.books.front
            → (result ≡ Err (Worn self.old.file.books.front)) × (self.new.file ≡ self.old.file) }
        ensures placed { IsPlaced (update_of.Remove key.now)
            self.old.file.books.front self.new.file.books.front result }
        ensures refused { self.old.stop ≡ None
            → IfErr result (IsUpdateCause D.Disk (update_of.Remove key.now)
            self.old.file self.new.file self.new.room) }
        ensures stop { self.new.stop ≡ stop_after self.old.stop result }
        ensures same { StoreGoesOn self.old self.new }
        ensures changes { Changes D.Disk KeepsLength self.old.file.disk self.new.file.disk }
        ensures least { steps.old ≤ steps.new }
    {
        let _state = self.file.state();
        self.update(&Update::Remove(*key), steps)
    }

    /// The front is rooted: the next opening has no journal to redo, pages that were kept for the root before are free, and
    /// the answer is the place. It takes no memory. After a refusal the store goes on from where it stands.
    pub fn checkpoint<L: Ledger>(&mut self, steps: &mut Steps<L>) -> Result<u64, Refusal>
        ensures answers { IsTrue (D.honest self.old.file.disk)
            → (p : Point K)
            → IsStoreAt D.Disk self.old p
            → IsAnswered D.Disk p ask.Checkpoint (told_by told.Rooted result) self.old self.new }
        ensures lone { IsTrue (D.honest self.old.file.disk)
            → (s : State K)
            → IsStoreAlone D.Disk self.old s
            → OnOk result (IsAnsweredLone D.Disk s
            ask.Checkpoint (told_by told.Rooted result) self.old self.new) }
        ensures stopped { (n : ℕ)
            → self.old.stop ≡ Some n
            → (result ≡ Err (Stopped n self.old.opened)) × (self.new ≡ self.old) }
        ensures worn { self.old.stop ≡ None
            → worn_from ≤ self.old.file.books.number
            → (result ≡ Err (Worn self.old.file.books.number))
            × (self.new.file ≡ self.old.file) }
        ensures placed { IfOk result (IsRootedFront self.new.file.books) }
        ensures refused { self.old.stop ≡ None
            → HasCauses D.Disk (IsRootRefusal self.old.file.books)
            self.old.file.disk self.new.file.disk result }
        ensures same { KeepsFront self.old self.new }
        ensures durable { OnOk result (IsSynced D.Disk self.new.file.disk) }
        ensures changes { Changes D.Disk KeepsLength self.old.file.disk self.new.file.disk }
        ensures least { steps.old ≤ steps.new }
        ensures most { steps.new ≤ steps.old + 1 }
    {
        if let Some(count) = self.stop {
            return Err(Refusal::Stopped {
                faults: count,
                opened: self.opened,
            });
        }
        step_root(&mut self.file, &mut self.next, steps)?;
        Ok(self.file.state().front())
    }
}
