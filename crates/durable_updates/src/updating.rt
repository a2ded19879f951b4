//! An update of an open file, planned, carried out and committed.
ghost use Rattle.std.specs.Prelude.{◌≡◌, ◌<◌, ◌≤◌, ◌+◌, ◌^◌, ℕ, [], None, Err, IsTrue, IfErr};
ghost use Rattle.std.specs.List.{count_by};
ghost use Rattle.grid_types.specs.declared.refusal.Refusal.TheVariants.{Worn};
ghost use Rattle.grid_types.specs.declared.sizes.TheConstants.{MOST_UPDATES};
ghost use Rattle.disk_trait.specs.Calls.{Changes};
ghost use Rattle.grid_model.specs.Lone.{State};
ghost use Rattle.page_states.specs.States.{is_claimed};
ghost use Rattle.file_state.specs.Roots.{HasRoom};
ghost use Rattle.file_standing.specs.Open.{IsOpenAlone};
ghost use Rattle.checkpoints.specs.Disks.{KeepsLength};
ghost use Rattle.file_updates.specs.Rooms.{HasRoomFor};
ghost use Rattle.client_sessions.specs.Points.{Point, standing_of};
ghost use Rattle.client_sessions.specs.Told.{worn_from};
ghost use Rattle.durable_updates.specs.Points.{IsAnsweredAt, IsOpenAsAt, reply_to, request_of};
ghost use Rattle.durable_updates.specs.Answers.{GoesOn, IsAnsweredAlone, IsPlaced, UnlessFailed};
ghost use Rattle.durable_updates.specs.Causes.{IsUpdateCause};

use crate::carrying::carry_out;
use crate::committing::spelled;
use crate::planning::plan_swept;
use crate::root_steps::WORN;
use disk_trait::{Disk, Steps};
use file_updates::{Outcome, UpdateRoom};
use grid_file::GridFile;
use grid_types::{Answer, Data, Refusal, Update};
use journal_slots::Batch;
use linear_scales::Root;
use std::sync::ledger::Ledger;

/// The update of a file whose front is not worn.
fn change_file<const K: usize, D: Disk, L: Ledger>(
    file: &mut GridFile<K, D>,
    next: &mut Root<K>,
    room: &mut UpdateRoom<K>,
    batch: &mut Batch<K>,
    update: &Update<K>,
    steps: &mut Steps<L>,
) -> Result<Answer<Option<Data>>, Refusal>
    requires next { HasRoom file.old.books.shape next.old }
    requires room { HasRoomFor file.old.books.shape room.old }
    requires none { file.old.claimed ≡ [] }
    requires place { file.old.books.front + MOST_UPDATES < 2 ^ 63 }
    ensures answers { IsTrue (D.honest file.old.disk)
        → (p : Point K)
        → p.beyond ≡ None
        → IsOpenAsAt D.Disk file.old.books p file.old.disk
        → IsAnsweredAt D.Disk file.old.books.shape p
        (request_of update.now) (reply_to update.now result)
        file.old.disk file.new.books file.new.disk }
    ensures lone { IsTrue (D.honest file.old.disk)
        → (s : State K)
        → IsOpenAlone D.Disk file.old.books (standing_of s) s file.old.disk
        → count_by is_claimed file.old.books.pages ≡ 0
        → UnlessFailed result (IsAnsweredAlone D.Disk file.old.books.shape s
        (request_of update.now) (reply_to update.now result)
        file.new.books file.new.disk) }
    ensures placed { IsPlaced update.now file.old.books.front file.new.books.front result }
    ensures refused { IfErr result
        (IsUpdateCause D.Disk update.now file.old file.new room.new) }
    ensures same { GoesOn file.old file.new }
    ensures next { HasRoom file.old.books.shape next.new }
    ensures room { HasRoomFor file.old.books.shape room.new }
    ensures changes { Changes D.Disk KeepsLength file.old.disk file.new.disk }
    ensures least { steps.old ≤ steps.new }
{
    // The type of an update says that its key has a box.
    let _update = spelled(update);
    match plan_swept(file, update, room, steps)? {
        Outcome::Nothing => Ok(Answer {
            at: file.state().front(),
            value: None,
        }),
        Outcome::Change(plan) => {
            carry_out(file, next, room, batch, update, &plan, steps)?;
            Ok(Answer {
                at: file.state().front(),
                value: plan.old,
            })
        }
    }
}

/// One update of an open file, in which no batch is in doubt: refused where the front is worn; else planned as a lone caller's,
/// given the pages and the slot that it needs, by root steps where these help, written on free pages, and committed. After
/// `Unsure` the update is in doubt until the file is opened again, readings go on, and no other update may be made. After
/// another refusal it is as if it had not been asked, but for a root step. `next`, `room` and `batch` are room, and are
/// overwritten. It takes no memory.
pub fn update_file<const K: usize, D: Disk, L: Ledger>(
    file: &mut GridFile<K, D>,
    next: &mut Root<K>,
    room: &mut UpdateRoom<K>,
    batch: &mut Batch<K>,
    update: &Update<K>,
    steps: &mut Steps<L>,
) -> Result<Answer<Option<Data>>, Refusal>
    requires next { HasRoom file.old.books.shape next.old }
    requires room { HasRoomFor file.old.books.shape room.old }
    requires none { file.old.claimed ≡ [] }
    ensures answers { IsTrue (D.honest file.old.disk)
        → (p : Point K)
        → p.beyond ≡ None
        → IsOpenAsAt D.Disk file.old.books p file.old.disk
        → IsAnsweredAt D.Disk file.old.books.shape p
        (request_of update.now) (reply_to update.now result)
        file.old.disk file.new.books file.new.disk }
    ensures lone { IsTrue (D.honest file.old.disk)
        → (s : State K)
        → IsOpenAlone D.Disk file.old.books (standing_of s) s file.old.disk
        → count_by is_claimed file.old.books.pages ≡ 0
        → UnlessFailed result (IsAnsweredAlone D.Disk file.old.books.shape s
        (request_of update.now) (reply_to update.now result)
        file.new.books file.new.disk) }
    ensures worn { worn_from ≤ file.old.books.front
        → (result ≡ Err (Worn file.old.books.front)) × (file.new ≡ file.old) }
    ensures placed { IsPlaced update.now file.old.books.front file.new.books.front result }
    ensures refused { IfErr result
        (IsUpdateCause D.Disk update.now file.old file.new room.new) }
    ensures same { GoesOn file.old file.new }
    ensures next { HasRoom file.old.books.shape next.new }
    ensures room { HasRoomFor file.old.books.shape room.new }
    ensures changes { Changes D.Disk KeepsLength file.old.disk file.new.disk }
    ensures least { steps.old ≤ steps.new }
{
    let front = file.state().front();
    if front >= WORN {
        return Err(Refusal::Worn { count: front });
    }
    change_file(file, next, room, batch, update, steps)
}
