//! What an update does whose note is given, as the journal has it.
ghost use Rattle.std.specs.Prelude.{◌≡◌, ◌≤◌, ◌+◌, ℕ, Some, IfErr, IfOk, IfSome};
ghost use Rattle.grid_types.specs.declared.layout_change.LayoutChange.TheVariants as note;
ghost use Rattle.grid_types.specs.declared.refusal.Refusal.TheVariants.{ReadFault};
ghost use Rattle.grid_types.specs.declared.sizes.TheConstants.{MOST_ATTRIBUTES};
ghost use Rattle.grid_types.specs.declared.update.Update.TheVariants.{Remove};
ghost use Rattle.disk_trait.specs.Causes.{Rose};
ghost use Rattle.grid_model.specs.Layouts.{BucketBox, Layout, holder};
ghost use Rattle.grid_model.specs.Notes.{updated_key, IsLawfulNote};
ghost use Rattle.grid_model.specs.Tables.{Table};
ghost use Rattle.history_pages.specs.PageLaws.{IsChange};
ghost use Rattle.query_paths.specs.Pinned.{IsPinnedTo};
ghost use Rattle.query_paths.specs.Finding.{IsBoxFound, IsBucketFound};
ghost use Rattle.query_paths.specs.Paths.{HasGetCause};
ghost use Rattle.grid_file.specs.Keeping.{ReadsFile};
ghost use Rattle.grid_file.specs.Pages.{front_place};
ghost use Rattle.file_updates.specs.Ready.{IsReadyPlan};
ghost use Rattle.file_updates.specs.Rooms.{HasRoomFor};
ghost use Rattle.file_updates.specs.Plans.{IsPlannedAs};

use crate::UpdateRoom;
use crate::found::{as_noted, key_of, plan_found_merge, plan_found_put, plan_found_removal};
use bucket_page::Head;
use disk_trait::{Disk, DiskFailed, Steps};
use grid_file::GridFile;
use grid_types::{Key, LayoutChange, LoggedUpdate, Refusal, Update};
use query_paths::{Pinned, find_bucket};
use std::sync::ledger::Ledger;
use update_plans::Plan;

/// What the removal of a key does whose bucket was found, where it is joined with the bucket of a number, which is read.
fn plan_logged_merge<const K: usize, D: Disk, L: Ledger>(
    file: &mut GridFile<K, D>,
    head: &Head<K>,
    with: u32,
    key: &Key<K>,
    room: &mut UpdateRoom<K>,
    steps: &mut Steps<L>,
) -> Result<Option<Plan<K>>, Refusal>
    requires few { K ≤ MOST_ATTRIBUTES }
    requires found { IsBucketFound (front_place D.Disk file.old) key.now.numbers
        room.old.found.value head.now }
    ensures planned { (L : Layout K) (t : Table) (e : ℕ × BucketBox K)
        → IsPinnedTo (front_place D.Disk file.old) L t
        → IsBoxFound file.old.books.shape L t key.now.numbers e
        room.old.found.value head.now
        → IsChange file.old.books.shape L t (Remove key.now) (note.Merge with) e
        → IfOk result (IsPlannedAs file.old.books.shape L t (Remove key.now) e
        (note.Merge with) room.new.first.value room.new.second.value) }
    ensures note { IfOk result (λ o. IfSome o (λ p. p.note ≡ note.Merge with)) }
    ensures ready { IfOk result (λ o. IfSome o (IsReadyPlan file.old.books (Remove key.now))) }
    ensures fault { IfErr result (λ e. e ≡ ReadFault) }
    ensures later { D.read_count file.old.disk ≤ D.read_count file.new.disk }
    ensures cause { IfErr result (λ e.
        Rose (D.read_count file.old.disk) (D.read_count file.new.disk)) }
    ensures least { steps.old ≤ steps.new }
    ensures most { steps.new ≤ steps.old + 1 }
    ensures same { ReadsFile K D.Disk file.old file.new }
    ensures found { room.new.found ≡ room.old.found }
    ensures room { room.new.refined ≡ room.old.refined }
{
    if with == head.number {
        return Ok(None);
    }
    match file.read_bucket(with, &mut room.beside, steps) {
        Ok(Some(_)) => Ok(plan_found_merge(file.state(), with, key, room)),
        Ok(None) => Ok(None),
        Err(DiskFailed) => Err(Refusal::ReadFault),
    }
}

/// What the removal of a key does whose bucket was found, by its note.
fn plan_logged_removal<const K: usize, D: Disk, L: Ledger>(
    file: &mut GridFile<K, D>,
    head: &Head<K>,
    key: &Key<K>,
    note: LayoutChange,
    room: &mut UpdateRoom<K>,
    steps: &mut Steps<L>,
) -> Result<Option<Plan<K>>, Refusal>
    requires few { K ≤ MOST_ATTRIBUTES }
    requires found { IsBucketFound (front_place D.Disk file.old) key.now.numbers
        room.old.found.value head.now }
    ensures planned { (L : Layout K) (t : Table) (e : ℕ × BucketBox K)
        → IsPinnedTo (front_place D.Disk file.old) L t
        → IsBoxFound file.old.books.shape L t key.now.numbers e
        room.old.found.value head.now
        → IsChange file.old.books.shape L t (Remove key.now) note e
        → IfOk result (IsPlannedAs file.old.books.shape L t (Remove key.now) e
        note room.new.first.value room.new.second.value) }
    ensures note { IfOk result (λ o. IfSome o (λ p. p.note ≡ note)) }
    ensures ready { IfOk result (λ o. IfSome o (IsReadyPlan file.old.books (Remove key.now))) }
    ensures fault { IfErr result (λ e. e ≡ ReadFault) }
    ensures later { D.read_count file.old.disk ≤ D.read_count file.new.disk }
    ensures cause { IfErr result (λ e.
        Rose (D.read_count file.old.disk) (D.read_count file.new.disk)) }
    ensures least { steps.old ≤ steps.new }
    ensures most { steps.new ≤ steps.old + 1 }
    ensures same { ReadsFile K D.Disk file.old file.new }
    ensures found { room.new.found ≡ room.old.found }
    ensures room { room.new.refined ≡ room.old.refined }
{
    match note {
        LayoutChange::Plain => {
            let _state = file.state();
            Ok(plan_found_removal(key, room))
        }
        LayoutChange::Cut { .. } => Ok(None),
        LayoutChange::Merge { with } => plan_logged_merge(file, head, with, key, room, steps),
    }
}

/// What an update does whose note is given: its plan has that note. None where there is none, which is so of no update that
/// was committed. The bucket of its key is found, and of a merge that of its number is read too.
pub fn plan_logged<const K: usize, D: Disk, L: Ledger>(
    file: &mut GridFile<K, D>,
    logged: &LoggedUpdate<K>,
    room: &mut UpdateRoom<K>,
    steps: &mut Steps<L>,
) -> Result<Option<Plan<K>>, Refusal>
    requires few { K ≤ MOST_ATTRIBUTES }
    requires room { HasRoomFor file.old.books.shape room.old }
    ensures planned { (L : Layout K) (t : Table) (e : ℕ × BucketBox K)
        → IsPinnedTo (front_place D.Disk file.old) L t
        → holder L (updated_key logged.now.update) ≡ Some e
        → IsLawfulNote file.old.books.shape L t logged.now.update logged.now.note
        → IfOk result (IsPlannedAs file.old.books.shape L t logged.now.update e
        logged.now.note room.new.first.value room.new.second.value) }
    ensures note { IfOk result (λ o. IfSome o (λ p. p.note ≡ logged.now.note)) }
    ensures ready { IfOk result (λ o. IfSome o (IsReadyPlan file.old.books logged.now.update)) }
    ensures honest { (L : Layout K) (t : Table)
        → IsPinnedTo (front_place D.Disk file.old) L t
        → IfErr result (λ e. e ≡ ReadFault) }
    ensures cause { HasGetCause K (front_place D.Disk file.old)
        (D.read_count file.old.disk) (D.read_count file.new.disk)
        (updated_key logged.now.update) room.new.found.value result }
    ensures least { steps.old ≤ steps.new }
    ensures most { steps.new ≤ steps.old + 3 }
    ensures same { ReadsFile K D.Disk file.old file.new }
    ensures room { HasRoomFor file.old.books.shape room.new }
{
    let head = find_bucket(file, key_of(&logged.update), &mut room.found, steps)?;
    match &logged.update {
        Update::Put(row) => match plan_found_put(file, row, room) {
            Ok(plan) => Ok(as_noted(Some(plan), logged.note)),
            Err(_) => Ok(None),
        },
        Update::Remove(key) => plan_logged_removal(file, &head, key, logged.note, room, steps),
    }
}
