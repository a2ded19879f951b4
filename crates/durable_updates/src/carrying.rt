//! A plan carried out: given its room, written and committed.
ghost use Rattle.std.specs.Prelude.{◌≡◌, ◌<◌, ◌≤◌, ◌+◌, ◌^◌, ℕ, [], OnOk, IfErr, IsTrue};
ghost use Rattle.std.specs.List.{count_by};
ghost use Rattle.grid_types.specs.declared.sizes.TheConstants.{MOST_UPDATES};
ghost use Rattle.disk_trait.specs.Calls.{Changes};
ghost use Rattle.grid_model.specs.Lawful.{StandsWith};
ghost use Rattle.grid_model.specs.Layouts.{BucketBox};
ghost use Rattle.grid_model.specs.Lone.{State, change, published};
ghost use Rattle.page_states.specs.States.{is_claimed, is_free};
ghost use Rattle.file_images.specs.Leads.{Standing};
ghost use Rattle.file_books.specs.Effects.{used_of};
ghost use Rattle.file_state.specs.Roots.{HasRoom};
ghost use Rattle.file_standing.specs.Open.{IsOpenAlone, IsOpenInSession};
ghost use Rattle.checkpoints.specs.Disks.{KeepsLength};
ghost use Rattle.update_plans.specs.Plans.{IsPlanOf};
ghost use Rattle.file_updates.specs.Ready.{IsReadyPlan};
ghost use Rattle.client_sessions.specs.Points.{after_update, standing_of};
ghost use Rattle.durable_updates.specs.Answers.{GoesOn, IsMoved};
ghost use Rattle.durable_updates.specs.Carried.{IsCarried, IsCarriedAlone, IsCarryingCause, IsPuttingCause};
ghost use Rattle.durable_updates.specs.Goings.{IsOpenSwept};

use crate::committing::{commit_plan, spelled};
use crate::making_room::make_room;
use disk_trait::{Disk, Steps};
use file_updates::{UpdateRoom, write_update};
use grid_file::GridFile;
use grid_types::{Refusal, Update};
use journal_slots::Batch;
use linear_scales::Root;
use std::sync::ledger::Ledger;
use update_plans::Plan;

/// Writes the new pages of a plan and commits it, where there is room for it.
fn put_through<const K: usize, D: Disk, L: Ledger>(
    file: &mut GridFile<K, D>,
    room: &mut UpdateRoom<K>,
    batch: &mut Batch<K>,
    update: &Update<K>,
    plan: &Plan<K>,
    steps: &mut Steps<L>,
) -> Result<(), Refusal>
    requires ready { IsReadyPlan file.old.books update.now plan.now }
    requires fits { StandsWith update.now plan.now.note }
    requires free { plan.now.pages ≤ count_by is_free file.old.books.pages }
    requires slot { used_of file.old.books file.old.books.half < file.old.books.shape.slots }
    requires place { file.old.books.front + MOST_UPDATES < 2 ^ 63 }
    requires none { file.old.claimed ≡ [] }
    ensures carried { IsTrue (D.honest file.old.disk)
        → (m : Standing K) (e : ℕ × BucketBox K)
        → IsOpenInSession D.Disk file.old.books m file.old.disk
        → IsPlanOf file.old.books.shape m.layout m.table update.now e
        room.old.first.value room.old.second.value plan.now
        → IsCarried D.Disk m e update.now plan.now.note result
        file.old.disk file.new.books file.new.disk }
    ensures alone { IsTrue (D.honest file.old.disk)
        → (m : Standing K) (e : ℕ × BucketBox K) (s : State K)
        → IsOpenAlone D.Disk file.old.books m s file.old.disk
        → IsPlanOf file.old.books.shape m.layout m.table update.now e
        room.old.first.value room.old.second.value plan.now
        → OnOk result (IsOpenAlone D.Disk file.new.books
        (after_update m update.now plan.now.note)
        (published e update.now plan.now.note s) file.new.disk) }
    ensures claims { OnOk result (count_by is_claimed file.new.books.pages
        ≡ count_by is_claimed file.old.books.pages) }
    ensures refused { IfErr result (IsPuttingCause D.Disk file.old file.new
        room.new.parts.value.old_page) }
    ensures moved { IsMoved file.old.books.front file.new.books.front result }
    ensures same { GoesOn file.old file.new }
    ensures room { room.new.refined ≡ room.old.refined }
    ensures changes { Changes D.Disk KeepsLength file.old.disk file.new.disk }
    ensures least { steps.old ≤ steps.new }
{
    let update = spelled(update);
    write_update(file, plan, room, steps)?;
    // The file is sound also where its new pages were written.
    let _state = file.state();
    commit_plan(file, update, plan, batch)
}

/// Carries a plan out: gives it its pages and its slot, by root steps where these help, writes its new pages and commits it.
/// The file is swept.
pub(crate) fn carry_out<const K: usize, D: Disk, L: Ledger>(
    file: &mut GridFile<K, D>,
    next: &mut Root<K>,
    room: &mut UpdateRoom<K>,
    batch: &mut Batch<K>,
    update: &Update<K>,
    plan: &Plan<K>,
    steps: &mut Steps<L>,
) -> Result<(), Refusal>
    requires next { HasRoom file.old.books.shape next.old }
    requires ready { IsReadyPlan file.old.books update.now plan.now }
    requires fits { StandsWith update.now plan.now.note }
    requires place { file.old.books.front + MOST_UPDATES < 2 ^ 63 }
    requires none { file.old.claimed ≡ [] }
    ensures carried { IsTrue (D.honest file.old.disk)
        → (m : Standing K) (e : ℕ × BucketBox K)
        → IsOpenInSession D.Disk file.old.books m file.old.disk
        → IsPlanOf file.old.books.shape m.layout m.table update.now e
        room.old.first.value room.old.second.value plan.now
        → IsCarried D.Disk m e update.now plan.now.note result
        file.old.disk file.new.books file.new.disk }
    ensures alone { IsTrue (D.honest file.old.disk)
        → (e : ℕ × BucketBox K) (s : State K)
        → IsOpenSwept D.Disk file.old.books (standing_of s) s file.old.disk
        → IsPlanOf file.old.books.shape s.layout s.table update.now e
        room.old.first.value room.old.second.value plan.now
        → IsCarriedAlone D.Disk s update.now
        (change file.old.books.shape s e update.now plan.now.note)
        result file.new.books file.new.disk }
    ensures refused { IfErr result (IsCarryingCause D.Disk file.old file.new
        room.new.parts.value.old_page) }
    ensures moved { IsMoved file.old.books.front file.new.books.front result }
    ensures same { GoesOn file.old file.new }
    ensures next { HasRoom file.old.books.shape next.new }
    ensures room { room.new.refined ≡ room.old.refined }
    ensures changes { Changes D.Disk KeepsLength file.old.disk file.new.disk }
    ensures least { steps.old ≤ steps.new }
{
    make_room(file, next, plan.need, steps)?;
    put_through(file, room, batch, update, plan, steps)
}
