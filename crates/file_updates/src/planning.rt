//! What an update does, decided by reading alone.
ghost use Rattle.std.specs.Prelude.{◌≡◌, ◌<◌, ◌≤◌, ◌+◌, ◌*◌, ℕ, None, Some, is_some, IfErr, IfOk, IfSome, IsSome};
ghost use Rattle.std.specs.List.{count_by};
ghost use Rattle.grid_types.specs.declared.refusal.Refusal.TheVariants.{ReadFault};
ghost use Rattle.grid_types.specs.declared.shape.Shape.{Shape};
ghost use Rattle.grid_types.specs.declared.sizes.TheConstants.{MOST_ATTRIBUTES, MOST_RECORDS};
ghost use Rattle.grid_types.specs.declared.update.Update.TheVariants.{Remove};
ghost use Rattle.grid_model.specs.Lawful.{StandsWith};
ghost use Rattle.grid_model.specs.Layouts.{BucketBox, Layout, holder};
ghost use Rattle.grid_model.specs.Notes.{updated_key};
ghost use Rattle.grid_model.specs.Tables.{Table, get};
ghost use Rattle.page_states.specs.States.{is_free};
ghost use Rattle.query_paths.specs.Pinned.{IsPinnedTo};
ghost use Rattle.query_paths.specs.Finding.{IsBoxFound, IsBucketFound};
ghost use Rattle.merge_paths.specs.Partners.{HasPartnerCause};
ghost use Rattle.update_plans.specs.declared.plan.Plan.{Plan};
ghost use Rattle.grid_file.specs.Keeping.{ReadsFile};
ghost use Rattle.grid_file.specs.Pages.{front_place};
ghost use Rattle.file_updates.specs.Ready.{IsReadyPlan};
ghost use Rattle.file_updates.specs.Rooms.{HasRoomFor};
ghost use Rattle.file_updates.specs.Outcomes.{FitsUpdate, HasUpdateCause, IfChange, IsFirstMerge, IsHonestRefusal, IsOutcomeOf};

use crate::UpdateRoom;
use crate::found::{key_of, plan_found_merge, plan_found_put, plan_found_removal};
use bucket_page::{Head, get_on};
use disk_trait::{Disk, Steps};
use grid_file::GridFile;
use grid_types::{Key, Refusal, Update};
use merge_paths::find_partner;
use query_paths::find_bucket;
use std::sync::ledger::Ledger;
use update_plans::Plan;

/// What an update comes to.
#[derive(Debug, Drop, PartialEq, Eq)]
pub enum Outcome<const K: usize> {
    /// It removes a key that is not there.
    Nothing,
    /// It has a plan.
    Change(Plan<K>),
}

/// Whether the bucket that was found has a key.
fn is_there<const K: usize>(head: &Head<K>, key: &Key<K>, room: &UpdateRoom<K>) -> bool
    requires few { K ≤ MOST_ATTRIBUTES }
    requires count { head.now.count ≤ MOST_RECORDS }
    ensures { (shape : Shape) (L : Layout K) (t : Table) (e : ℕ × BucketBox K)
        → IsBoxFound shape L t key.now.numbers e room.now.found.value head.now
        → result ≡ is_some (get t key.now.numbers) }
{
    get_on(&room.found, head.count as usize, key).is_some()
}

/// A plan, where there are so many pages free as it needs.
fn if_afforded<const K: usize>(plan: Option<Plan<K>>, free: u32) -> Option<Plan<K>>
    ensures taken { (p : Plan K) → plan.entry ≡ Some p → p.need ≤ free → result ≡ Some p }
    ensures left { (p : Plan K) → plan.entry ≡ Some p → free < p.need → result ≡ None }
    ensures from { IfSome result (λ p. plan.entry ≡ Some p) }
{
    let Some(plan) = plan else {
        return None;
    };
    if plan.need <= free { Some(plan) } else { None }
}

/// The merge that the removal of a key takes whose bucket was found: with the first neighbour that joins, if there are pages
/// for it.
fn plan_first_merge<const K: usize, D: Disk, L: Ledger>(
    file: &mut GridFile<K, D>,
    head: &Head<K>,
    key: &Key<K>,
    room: &mut UpdateRoom<K>,
    steps: &mut Steps<L>,
) -> Result<Option<Plan<K>>, Refusal>
    requires few { K ≤ MOST_ATTRIBUTES }
    requires found { IsBucketFound (front_place D.Disk file.old) key.now.numbers
        room.old.found.value head.now }
    ensures planned { (L : Layout K) (t : Table) (e : ℕ × BucketBox K)
        → IsPinnedTo (front_place D.Disk file.old) L t
        → IsBoxFound file.old.books.shape L t key.now.numbers e
        room.old.found.value head.now
        → IsSome (get t key.now.numbers)
        → IfOk result (IsFirstMerge file.old.books.shape
        (count_by is_free file.old.books.pages) L t key.now e
        room.new.first.value room.new.second.value) }
    ensures ready { IfOk result (λ o. IfSome o (IsReadyPlan file.old.books (Remove key.now))) }
    ensures fits { IfOk result (λ o. IfSome o (λ p. StandsWith (Remove key.now) p.note)) }
    ensures honest { (L : Layout K) (t : Table)
        → IsPinnedTo (front_place D.Disk file.old) L t
        → IfErr result (λ r. r ≡ ReadFault) }
    ensures cause { HasPartnerCause (front_place D.Disk file.old)
        (D.read_count file.old.disk) (D.read_count file.new.disk)
        head.now.region room.new.beside.value result }
    ensures least { steps.old ≤ steps.new }
    ensures most { steps.new ≤ steps.old + 4 * K }
    ensures same { ReadsFile K D.Disk file.old file.new }
    ensures found { room.new.found ≡ room.old.found }
    ensures room { room.new.refined ≡ room.old.refined }
{
    let Some(other) = find_partner(file, head, &mut room.beside, steps)? else {
        return Ok(None);
    };
    let state = file.state();
    let plan = plan_found_merge(state, other.number, key, room);
    Ok(if_afforded(plan, state.free()))
}

/// What the removal of a key comes to whose bucket was found.
fn plan_update_removal<const K: usize, D: Disk, L: Ledger>(
    file: &mut GridFile<K, D>,
    head: &Head<K>,
    key: &Key<K>,
    room: &mut UpdateRoom<K>,
    steps: &mut Steps<L>,
) -> Result<Outcome<K>, Refusal>
    requires few { K ≤ MOST_ATTRIBUTES }
    requires found { IsBucketFound (front_place D.Disk file.old) key.now.numbers
        room.old.found.value head.now }
    ensures planned { (L : Layout K) (t : Table) (e : ℕ × BucketBox K)
        → IsPinnedTo (front_place D.Disk file.old) L t
        → IsBoxFound file.old.books.shape L t key.now.numbers e
        room.old.found.value head.now
        → IfOk result (IsOutcomeOf file.old.books.shape
        (count_by is_free file.old.books.pages) L t e (Remove key.now)
        room.new.first.value room.new.second.value) }
    ensures ready { IfOk result (IfChange (IsReadyPlan file.old.books (Remove key.now))) }
    ensures fits { IfOk result (FitsUpdate (Remove key.now)) }
    ensures honest { (L : Layout K) (t : Table)
        → IsPinnedTo (front_place D.Disk file.old) L t
        → IfErr result (λ r. r ≡ ReadFault) }
    ensures cause { HasPartnerCause (front_place D.Disk file.old)
        (D.read_count file.old.disk) (D.read_count file.new.disk)
        head.now.region room.new.beside.value result }
    ensures least { steps.old ≤ steps.new }
    ensures most { steps.new ≤ steps.old + 4 * K }
    ensures same { ReadsFile K D.Disk file.old file.new }
    ensures found { room.new.found ≡ room.old.found }
    ensures room { room.new.refined ≡ room.old.refined }
{
    let _state = file.state();
    if !is_there(head, key, room) {
        return Ok(Outcome::Nothing);
    }
    if let Some(plan) = plan_first_merge(file, head, key, room, steps)? {
        return Ok(Outcome::Change(plan));
    }
    match plan_found_removal(key, room) {
        Some(plan) => Ok(Outcome::Change(plan)),
        None => Ok(Outcome::Nothing),
    }
}

/// What an update does to an open file, where nobody else changes it: the bucket of its key is found and the change planned,
/// as a lone caller's. A removal joins its bucket with the first neighbour that joins, if there are pages for that.
pub fn plan_update<const K: usize, D: Disk, L: Ledger>(
    file: &mut GridFile<K, D>,
    update: &Update<K>,
    room: &mut UpdateRoom<K>,
    steps: &mut Steps<L>,
) -> Result<Outcome<K>, Refusal>
    requires few { K ≤ MOST_ATTRIBUTES }
    requires room { HasRoomFor file.old.books.shape room.old }
    ensures planned { (L : Layout K) (t : Table) (e : ℕ × BucketBox K)
        → IsPinnedTo (front_place D.Disk file.old) L t
        → holder L (updated_key update.now) ≡ Some e
        → IfOk result (IsOutcomeOf file.old.books.shape
        (count_by is_free file.old.books.pages) L t e update.now
        room.new.first.value room.new.second.value) }
    ensures ready { IfOk result (IfChange (IsReadyPlan file.old.books update.now)) }
    ensures fits { IfOk result (FitsUpdate update.now) }
    ensures honest { (L : Layout K) (t : Table) (e : ℕ × BucketBox K)
        → IsPinnedTo (front_place D.Disk file.old) L t
        → holder L (updated_key update.now) ≡ Some e
        → IfErr result (IsHonestRefusal file.old.books.shape L t update.now) }
    ensures cause { HasUpdateCause K (front_place D.Disk file.old)
        (D.read_count file.old.disk) (D.read_count file.new.disk)
        (updated_key update.now) room.new.found.value room.new.beside.value result }
    ensures least { steps.old ≤ steps.new }
    ensures most { steps.new ≤ steps.old + 4 * K + 2 }
    ensures same { ReadsFile K D.Disk file.old file.new }
    ensures room { HasRoomFor file.old.books.shape room.new }
{
    let head = find_bucket(file, key_of(update), &mut room.found, steps)?;
    match update {
        Update::Put(row) => Ok(Outcome::Change(plan_found_put(file, row, room)?)),
        Update::Remove(key) => plan_update_removal(file, &head, key, room, steps),
    }
}
