//! A store is read: the data of a key, and how many records match a query.
ghost use Rattle.std.specs.Prelude.{◌≡◌, false, Err, IsTrue, IfOk, OnOk};
ghost use Rattle.grid_types.specs.declared.request.Reply.TheVariants.{Counted, Got};
ghost use Rattle.grid_types.specs.declared.request.Request.TheVariants.{Count, Get};
ghost use Rattle.grid_types.specs.declared.refusal.Refusal.TheVariants.{BadQuery};
ghost use Rattle.grid_types.specs.Queries.{is_lawful};
ghost use Rattle.grid_model.specs.Lone.{State};
ghost use Rattle.query_paths.specs.Pinned.{MakesSteps};
ghost use Rattle.query_paths.specs.Paths.{AreJudged, IsGot, HasGetCause, HasQueryCause, pages_of_query};
ghost use Rattle.query_paths.specs.Rooms.{bucket_bytes, part_bytes, room_for};
ghost use Rattle.grid_file.specs.Keeping.{ReadsFile};
ghost use Rattle.grid_file.specs.Pages.{front_place};
ghost use Rattle.client_sessions.specs.Points.{Point};
ghost use Rattle.client_sessions.specs.Told.{Told};
ghost use Rattle.durable_updates.specs.Points.{IsOpenAsAt};
ghost use Rattle.grid_store.specs.Stores.{IsStoreAlone, IsStoreAt, KeepsStore};
ghost use Rattle.grid_store.specs.Answered.{IsAnswered, IsAnsweredLone, told_by};

use crate::store::Store;
use disk_trait::{Disk, Steps};
use grid_file::GridFile;
use grid_types::{Answer, Data, Key, PAGE_BYTES, Query, Refusal};
use query_paths::{Room, count_rows, exact};
use std::sync::ledger::Ledger;

/// The data of a key at the front of an open file.
fn read_key<const K: usize, D: Disk, L: Ledger>(
    file: &mut GridFile<K, D>,
    key: &Key<K>,
    page: &mut [u8; PAGE_BYTES],
    steps: &mut Steps<L>,
) -> Result<Answer<Option<Data>>, Refusal>
    ensures told { IsTrue (D.honest file.old.disk)
        → (p : Point K)
        → IsOpenAsAt D.Disk file.old.books p file.old.disk
        → Told file.old.books.shape p (Get key.now) (told_by Got result) p }
    ensures placed { IfOk result (λ a. a.at ≡ file.old.books.front) }
    ensures expected { IfOk result (λ a.
        IsGot K (front_place D.Disk file.old) key.now.numbers page.new a.value) }
    ensures cause { HasGetCause K (front_place D.Disk file.old)
        (D.read_count file.old.disk) (D.read_count file.new.disk)
        key.now.numbers page.new result }
    ensures reads { MakesSteps 2 steps.old steps.new result }
    ensures same { ReadsFile K D.Disk file.old file.new }
{
    // The books of a file bound its number of attributes.
    let at = file.state().front();
    let value = exact(file, key, page, steps)?;
    Ok(Answer { at, value })
}

/// How many records match a lawful query at the front of an open file.
fn count_matching<const K: usize, D: Disk, L: Ledger>(
    file: &mut GridFile<K, D>,
    query: &Query<K>,
    room: &mut Room<K>,
    steps: &mut Steps<L>,
) -> Result<Answer<u64>, Refusal>
    requires lawful { IsTrue (is_lawful query.now.sides) }
    requires marks { room_for room.old ≡ file.old.books.shape.pages }
    ensures told { IsTrue (D.honest file.old.disk)
        → (p : Point K)
        → IsOpenAsAt D.Disk file.old.books p file.old.disk
        → Told file.old.books.shape p (Count query.now) (told_by Counted result) p }
    ensures placed { IfOk result (λ a. a.at ≡ file.old.books.front) }
    ensures judged { OnOk result (AreJudged K (front_place D.Disk file.old) query.now.sides) }
    ensures cause { HasQueryCause K false (front_place D.Disk file.old) query.now.sides
        (part_bytes room.new) (bucket_bytes room.new)
        (D.read_count file.old.disk) (D.read_count file.new.disk) result }
    ensures reads { IsTrue (D.honest file.old.disk)
        → (p : Point K)
        → IsOpenAsAt D.Disk file.old.books p file.old.disk
        → MakesSteps (pages_of_query p.at.layout query.now) steps.old steps.new result }
    ensures marks { room_for room.new ≡ room_for room.old }
    ensures same { ReadsFile K D.Disk file.old file.new }
{
    // The books of a file bound its number of attributes, and the numbers of its buckets.
    let at = file.state().front();
    let value = count_rows(file, query, room, steps)?;
    Ok(Answer { at, value })
}

impl<const K: usize, D: Disk> Store<K, D> {
    /// The data of a key: one directory page is read, and then one bucket page.
    pub fn get<L: Ledger>(
        &mut self,
        key: &Key<K>,
        steps: &mut Steps<L>,
    ) -> Result<Answer<Option<Data>>, Refusal>
        ensures answers { IsTrue (D.honest self.old.file.disk)
            → (p : Point K)
            → IsStoreAt D.Disk self.old p
            → IsAnswered D.Disk p (Get key.now) (told_by Got result) self.old self.new }
        ensures lone { IsTrue (D.honest self.old.file.disk)
            → (s : State K)
            → IsStoreAlone D.Disk self.old s
            → OnOk result (IsAnsweredLone D.Disk s
            (Get key.now) (told_by Got result) self.old self.new) }
        ensures alone { (s : State K)
            → IsStoreAlone D.Disk self.old s
            → IsStoreAlone D.Disk self.new s }
        ensures placed { IfOk result (λ a. a.at ≡ self.old.file.books.front) }
        ensures expected { IfOk result (λ a. IsGot K (front_place D.Disk self.old.file)
            key.now.numbers self.new.page a.value) }
        ensures cause { HasGetCause K (front_place D.Disk self.old.file)
            (D.read_count self.old.file.disk) (D.read_count self.new.file.disk)
            key.now.numbers self.new.page result }
        ensures reads { MakesSteps 2 steps.old steps.new result }
        ensures same { KeepsStore D.Disk self.old self.new }
    {
        read_key(&mut self.file, key, &mut self.page, steps)
    }

    /// How many records match a query: each directory page and each bucket page that it meets is read once. `BadQuery` comes
    /// first, where a side ends below its begin, and then nothing is read.
    pub fn count<L: Ledger>(
        &mut self,
        query: &Query<K>,
        steps: &mut Steps<L>,
    ) -> Result<Answer<u64>, Refusal>
        ensures answers { IsTrue (D.honest self.old.file.disk)
            → (p : Point K)
            → IsStoreAt D.Disk self.old p
            → IsAnswered D.Disk p (Count query.now) (told_by Counted result)
            self.old self.new }
        ensures lone { IsTrue (D.honest self.old.file.disk)
            → (s : State K)
            → IsStoreAlone D.Disk self.old s
            → OnOk result (IsAnsweredLone D.Disk s
            (Count query.now) (told_by Counted result) self.old self.new) }
        ensures alone { (s : State K)
            → IsStoreAlone D.Disk self.old s
            → IsStoreAlone D.Disk self.new s }
        ensures unlawful { is_lawful query.now.sides ≡ false
            → (result ≡ Err BadQuery) × (self.new ≡ self.old) × (steps.new ≡ steps.old) }
        ensures placed { IfOk result (λ a. a.at ≡ self.old.file.books.front) }
        ensures judged { OnOk result
            (AreJudged K (front_place D.Disk self.old.file) query.now.sides) }
        ensures cause { IsTrue (is_lawful query.now.sides)
            → HasQueryCause K false (front_place D.Disk self.old.file) query.now.sides
            (part_bytes self.new.query) (bucket_bytes self.new.query)
            (D.read_count self.old.file.disk) (D.read_count self.new.file.disk) result }
        ensures reads { IsTrue (D.honest self.old.file.disk)
            → (p : Point K)
            → IsStoreAt D.Disk self.old p
            → IsTrue (is_lawful query.now.sides)
            → MakesSteps (pages_of_query p.at.layout query.now) steps.old steps.new result }
        ensures same { KeepsStore D.Disk self.old self.new }
    {
        if !query.lawful() {
            return Err(Refusal::BadQuery);
        }
        count_matching(&mut self.file, query, &mut self.query, steps)
    }
}
