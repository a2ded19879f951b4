//! What an update comes to in an open file that is swept first.
ghost use Rattle.std.specs.Prelude.{◌≡◌, ◌≤◌, ℕ, [], Some, IfErr, IfOk, IsTrue};
ghost use Rattle.std.specs.List.{count_by};
ghost use Rattle.grid_model.specs.Layouts.{BucketBox, holder};
ghost use Rattle.grid_model.specs.Lone.{State};
ghost use Rattle.grid_model.specs.Notes.{updated_key};
ghost use Rattle.page_states.specs.States.{is_claimed, is_free};
ghost use Rattle.file_images.specs.Leads.{Standing};
ghost use Rattle.file_standing.specs.Open.{IsOpenAlone, IsOpenInSession};
ghost use Rattle.grid_file.specs.Pages.{front_place};
ghost use Rattle.file_updates.specs.Ready.{IsReadyPlan};
ghost use Rattle.file_updates.specs.Rooms.{HasRoomFor};
ghost use Rattle.file_updates.specs.Outcomes.{FitsUpdate, HasUpdateCause, IfChange, IsHonestRefusal, IsOutcomeOf};
ghost use Rattle.durable_updates.specs.Goings.{GoesOnThere, IsOpenSwept};

use disk_trait::{Disk, Steps};
use file_updates::{Outcome, UpdateRoom, plan_update};
use grid_file::GridFile;
use grid_types::{Refusal, Update};
use std::sync::ledger::Ledger;

/// Sweeps a file, and plans an update over its pages.
pub(crate) fn plan_swept<const K: usize, D: Disk, L: Ledger>(
    file: &mut GridFile<K, D>,
    update: &Update<K>,
    room: &mut UpdateRoom<K>,
    steps: &mut Steps<L>,
) -> Result<Outcome<K>, Refusal>
    requires room { HasRoomFor file.old.books.shape room.old }
    requires none { file.old.claimed ≡ [] }
    ensures planned { IsTrue (D.honest file.old.disk)
        → (m : Standing K) (e : ℕ × BucketBox K)
        → IsOpenInSession D.Disk file.old.books m file.old.disk
        → holder m.layout (updated_key update.now) ≡ Some e
        → IfOk result (IsOutcomeOf file.old.books.shape
        (count_by is_free file.new.books.pages) m.layout m.table e update.now
        room.new.first.value room.new.second.value) }
    ensures swept { (m : Standing K) (s : State K)
        → IsOpenAlone D.Disk file.old.books m s file.old.disk
        → count_by is_claimed file.old.books.pages ≡ 0
        → IsOpenSwept D.Disk file.new.books m s file.new.disk }
    ensures ready { IfOk result (IfChange (IsReadyPlan file.new.books update.now)) }
    ensures fits { IfOk result (FitsUpdate update.now) }
    ensures honest { IsTrue (D.honest file.old.disk)
        → (m : Standing K) (e : ℕ × BucketBox K)
        → IsOpenInSession D.Disk file.old.books m file.old.disk
        → holder m.layout (updated_key update.now) ≡ Some e
        → IfErr result (IsHonestRefusal file.old.books.shape m.layout m.table update.now) }
    ensures cause { HasUpdateCause K (front_place D.Disk file.old)
        (D.read_count file.old.disk) (D.read_count file.new.disk)
        (updated_key update.now) room.new.found.value room.new.beside.value result }
    ensures same { GoesOnThere K D.Disk file.old file.new }
    ensures room { HasRoomFor file.old.books.shape room.new }
    ensures least { steps.old ≤ steps.new }
{
    file.sweep();
    // The books of a file bound its number of attributes.
    let _state = file.state();
    plan_update(file, update, room, steps)
}
