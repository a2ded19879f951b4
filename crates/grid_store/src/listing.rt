//! A listing of a store: the records that match a query.
ghost use Rattle.std.specs.Prelude.{◌≡◌, false, true, Err, IsTrue, IfOk, OnOk};
ghost use Rattle.grid_types.specs.declared.refusal.Refusal.TheVariants.{BadQuery};
ghost use Rattle.grid_types.specs.declared.request.Reply.TheVariants.{Listed};
ghost use Rattle.grid_types.specs.declared.request.Request.TheVariants.{List};
ghost use Rattle.grid_types.specs.Queries.{is_lawful};
ghost use Rattle.grid_model.specs.Lone.{State};
ghost use Rattle.query_paths.specs.Pinned.{MakesSteps};
ghost use Rattle.query_paths.specs.Paths.{AreJudged, HasQueryCause, pages_of_query};
ghost use Rattle.query_paths.specs.Rooms.{bucket_bytes, part_bytes, room_for};
ghost use Rattle.grid_file.specs.Keeping.{ReadsFile};
ghost use Rattle.grid_file.specs.Pages.{front_place};
ghost use Rattle.client_sessions.specs.Points.{Point};
ghost use Rattle.client_sessions.specs.Told.{Told};
ghost use Rattle.durable_updates.specs.Points.{IsOpenAsAt};
ghost use Rattle.grid_store.specs.Stores.{IsStoreAlone, IsStoreAt, KeepsStore};
ghost use Rattle.grid_store.specs.Answered.{IsAnswered, IsAnsweredLone, told_by};

use crate::store::Store;
use disk_trait::{Disk, Steps};
use grid_file::GridFile;
use grid_types::{Answer, Query, Refusal, Rows};
use query_paths::{Room, list_rows};
use std::alloc::Global;
use std::sync::ledger::Ledger;

/// The records that match a lawful query at the front of an open file.
fn list_matching<const K: usize, D: Disk, L: Ledger>(
    alloc: Global,
    file: &mut GridFile<K, D>,
    query: &Query<K>,
    room: &mut Room<K>,
    steps: &mut Steps<L>,
) -> Result<Answer<Rows<K>>, Refusal>
    requires lawful { IsTrue (is_lawful query.now.sides) }
    requires marks { room_for room.old ≡ file.old.books.shape.pages }
    ensures told { IsTrue (D.honest file.old.disk)
        → (p : Point K)
        → IsOpenAsAt D.Disk file.old.books p file.old.disk
        → Told file.old.books.shape p (List query.now) (told_by Listed result) p }
    ensures placed { IfOk result (λ a. a.at ≡ file.old.books.front) }
    ensures judged { OnOk result (AreJudged K (front_place D.Disk file.old) query.now.sides) }
    ensures cause { HasQueryCause K true (front_place D.Disk file.old) query.now.sides
        (part_bytes room.new) (bucket_bytes room.new)
        (D.read_count file.old.disk) (D.read_count file.new.disk) result }
    ensures reads { IsTrue (D.honest file.old.disk)
        → (p : Point K)
        → IsOpenAsAt D.Disk file.old.books p file.old.disk
        → MakesSteps (pages_of_query p.at.layout query.now) steps.old steps.new result }
    ensures marks { room_for room.new ≡ room_for room.old }
    ensures same { ReadsFile K D.Disk file.old file.new }
{
    // The books of a file bound its number of attributes, and the numbers of its buckets.
    let at = file.state().front();
    let value = list_rows(alloc, file, query, room, steps)?;
    Ok(Answer { at, value })
}

impl<const K: usize, D: Disk> Store<K, D> {
    /// The records that match a query, in the order of their keys: each directory page and each bucket page that it meets is
    /// read once. `BadQuery` comes first, where a side ends below its begin, and then nothing is read. It takes memory for
    /// the records alone.
    pub fn list<L: Ledger>(
        &mut self,
        alloc: Global,
        query: &Query<K>,
        steps: &mut Steps<L>,
    ) -> Result<Answer<Rows<K>>, Refusal>
        ensures answers { IsTrue (D.honest self.old.file.disk)
            → (p : Point K)
            → IsStoreAt D.Disk self.old p
            → IsAnswered D.Disk p (List query.now) (told_by Listed result)
            self.old self.new }
        ensures lone { IsTrue (D.honest self.old.file.disk)
            → (s : State K)
            → IsStoreAlone D.Disk self.old s
            → OnOk result (IsAnsweredLone D.Disk s
            (List query.now) (told_by Listed result) self.old self.new) }
        ensures alone { (s : State K)
            → IsStoreAlone D.Disk self.old s
            → IsStoreAlone D.Disk self.new s }
        ensures unlawful { is_lawful query.now.sides ≡ false
            → (result ≡ Err BadQuery) × (self.new ≡ self.old) × (steps.new ≡ steps.old) }
        ensures placed { IfOk result (λ a. a.at ≡ self.old.file.books.front) }
        ensures judged { OnOk result
            (AreJudged K (front_place D.Disk self.old.file) query.now.sides) }
        ensures cause { IsTrue (is_lawful query.now.sides)
            → HasQueryCause K true (front_place D.Disk self.old.file) query.now.sides
            (part_bytes self.new.query) (bucket_bytes self.new.query)
            (D.read_count self.old.file.disk) (D.read_count self.new.file.disk) result }
        ensures reads { IsTrue (D.honest self.old.file.disk)
            → (p : Point K)
            → IsStoreAt D.Disk self.old p
            → IsTrue (is_lawful query.now.sides)
            → MakesSteps (pages_of_query p.at.layout query.now) steps.old steps.new result }
        ensures same { KeepsStore D.Disk self.old self.new }
    {
        if !query.lawful() {
            return Err(Refusal::BadQuery);
        }
        list_matching(alloc, &mut self.file, query, &mut self.query, steps)
    }
}
