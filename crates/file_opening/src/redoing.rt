//! One update behind a root is redone: in memory, and on pages that the root does not reach. Nothing is synced.
ghost use Rattle.std.specs.Prelude.{◌≡◌, ◌<◌, ◌≤◌, ◌+◌, ◌^◌, ◌∷◌, [], List, IsTrue, OnOk, IfOk, IfErr};
ghost use Rattle.std.specs.List.{count_by};
ghost use Rattle.grid_types.specs.declared.layout_change.LoggedUpdate.{LoggedUpdate};
ghost use Rattle.disk_trait.specs.Calls.{Changes, HasCauses};
ghost use Rattle.grid_model.specs.Lawful.{IsUpdateOf};
ghost use Rattle.page_states.specs.States.{is_free};
ghost use Rattle.shadow_directory.specs.Calls.{IsFault};
ghost use Rattle.file_images.specs.Leads.{Standing};
ghost use Rattle.file_standing.specs.Open.{StaysStanding};
ghost use Rattle.checkpoints.specs.Disks.{KeepsLength};
ghost use Rattle.file_updates.specs.Rooms.{HasRoomFor};
ghost use Rattle.file_opening.specs.UnderWay.{IsUnderWay};
ghost use Rattle.file_opening.specs.Redoing.{IsReadyForSome, IsNextPlan, KeepsRoot, MayRefuseRedo};

use disk_trait::{Disk, Steps};
use file_updates::{UpdateRoom, change_of, plan_logged, write_update};
use grid_file::GridFile;
use grid_types::{LoggedUpdate, Refusal};
use std::sync::ledger::Ledger;
use update_plans::Plan;

/// Redoes an update whose plan is known: its new pages are written on free pages, and published. After a refusal it is not
/// redone, and no page is claimed.
fn redo_planned<const K: usize, D: Disk, L: Ledger>(
    file: &mut GridFile<K, D>,
    plan: &Plan<K>,
    room: &mut UpdateRoom<K>,
    steps: &mut Steps<L>,
) -> Result<(), Refusal>
    requires ready { IsReadyForSome file.old.books plan.now }
    requires free { plan.now.pages ≤ count_by is_free file.old.books.pages }
    requires none { file.old.claimed ≡ [] }
    requires place { file.old.books.front + 1 < 2 ^ 63 }
    ensures redone { (m : Standing K) (u : LoggedUpdate K) (rest : List (LoggedUpdate K))
        → IsTrue (D.honest file.old.disk)
        → IsNextPlan D.Disk file.old m u rest
        room.old.first.value room.old.second.value plan.now
        → IsUpdateOf K u.update
        → OnOk result (IsUnderWay D.Disk file.new.books file.new.disk m rest) }
    ensures moments { (m : Standing K) (rest : List (LoggedUpdate K))
        → IsUnderWay D.Disk file.old.books file.old.disk m rest
        → StaysStanding D.Disk m file.old.disk file.new.disk }
    ensures honest { (m : Standing K) (u : LoggedUpdate K) (rest : List (LoggedUpdate K))
        → IsTrue (D.honest file.old.disk)
        → IsNextPlan D.Disk file.old m u rest
        room.old.first.value room.old.second.value plan.now
        → IfErr result IsFault }
    ensures none { file.new.claimed ≡ [] }
    ensures front { OnOk result (file.new.books.front ≡ file.old.books.front + 1) }
    ensures same { KeepsRoot file.old.books file.new.books }
    ensures changes { Changes D.Disk KeepsLength file.old.disk file.new.disk }
    ensures causes { HasCauses D.Disk MayRefuseRedo file.old.disk file.new.disk result }
    ensures room { room.new.refined ≡ room.old.refined }
{
    write_update(file, plan, room, steps)?;
    file.publish(&change_of(plan));
    Ok(())
}

/// Redoes an update, and answers whether it could be: false where it has no plan with its note, or more new pages than are
/// free, which is so of no file that stands for a table.
pub(crate) fn redo_update<const K: usize, D: Disk, L: Ledger>(
    file: &mut GridFile<K, D>,
    logged: &LoggedUpdate<K>,
    room: &mut UpdateRoom<K>,
    steps: &mut Steps<L>,
) -> Result<bool, Refusal>
    requires room { HasRoomFor file.old.books.shape room.old }
    requires none { file.old.claimed ≡ [] }
    requires place { file.old.books.front + 1 < 2 ^ 63 }
    ensures redone { (m : Standing K) (rest : List (LoggedUpdate K))
        → IsTrue (D.honest file.old.disk)
        → IsUnderWay D.Disk file.old.books file.old.disk m (logged.now ∷ rest)
        → IsUpdateOf K logged.now.update
        → IfOk result (λ done. IsTrue done
        × IsUnderWay D.Disk file.new.books file.new.disk m rest) }
    ensures moments { (m : Standing K) (rest : List (LoggedUpdate K))
        → IsUnderWay D.Disk file.old.books file.old.disk m (logged.now ∷ rest)
        → StaysStanding D.Disk m file.old.disk file.new.disk }
    ensures honest { (m : Standing K) (rest : List (LoggedUpdate K))
        → IsTrue (D.honest file.old.disk)
        → IsUnderWay D.Disk file.old.books file.old.disk m (logged.now ∷ rest)
        → IfErr result IsFault }
    ensures none { file.new.claimed ≡ [] }
    ensures front { IfOk result (λ done. IsTrue done
        → file.new.books.front ≡ file.old.books.front + 1) }
    ensures same { KeepsRoot file.old.books file.new.books }
    ensures changes { Changes D.Disk KeepsLength file.old.disk file.new.disk }
    ensures causes { HasCauses D.Disk MayRefuseRedo file.old.disk file.new.disk result }
    ensures room { HasRoomFor file.old.books.shape room.new }
{
    file.sweep();
    // The books of a file bound its number of attributes.
    let _state = file.state();
    let Some(plan) = plan_logged(file, logged, room, steps)? else {
        return Ok(false);
    };
    if plan.pages > file.state().free() {
        return Ok(false);
    }
    redo_planned(file, &plan, room, steps)?;
    Ok(true)
}
