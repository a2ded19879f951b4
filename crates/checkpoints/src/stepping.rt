//! A root step.
ghost use Rattle.std.specs.Prelude.{◌≡◌, ◌<◌, ◌≤◌, ◌+◌, ◌*◌, ◌^◌, OnOk, OnErr};
ghost use Rattle.grid_types.specs.declared.sizes.TheConstants.{PAGE_BYTES};
ghost use Rattle.grid_types.specs.Shapes.{file_pages};
ghost use Rattle.disk_trait.specs.Calls.{Changes, IsSynced, HasCauses};
ghost use Rattle.grid_model.specs.Lone.{State, root};
ghost use Rattle.file_roots.specs.Refusals.{MayRefuseClosing};
ghost use Rattle.file_images.specs.Leads.{Standing};
ghost use Rattle.file_state.specs.Roots.{HasRoom};
ghost use Rattle.file_standing.specs.Open.{IsOpenAt, IsOpenInSession, IsOpenAlone, StaysStanding};
ghost use Rattle.checkpoints.specs.Checkpoints.{AreBooksAfter, IsRooted, StaysOpen};
ghost use Rattle.checkpoints.specs.Disks.{KeepsLength};

use crate::clearing::clear_idle;
use crate::closing::close;
use crate::rooting::write_root;
use disk_trait::{Disk, DiskFailed, Steps};
use file_state::FileState;
use grid_types::Refusal;
use linear_scales::Root;
use std::sync::ledger::Ledger;

/// A root step. `next` is made the next root and written at the front, the pages that roots have no need of are freed, and
/// the half of the journal that is not current is cleared. It takes no memory. After a failure the file goes on from where
/// it stands, and the step may be tried again.
pub fn checkpoint<const K: usize, D: Disk, L: Ledger>(
    disk: &mut D,
    state: &mut FileState<K>,
    next: &mut Root<K>,
    steps: &mut Steps<L>,
) -> Result<(), Refusal>
    requires room { HasRoom state.old.shape next.old }
    requires more { state.old.number < 2 ^ 63 }
    requires size { file_pages state.old.shape * PAGE_BYTES ≤ D.extent disk.old }
    ensures moments { (m : Standing K)
        → IsOpenAt D.Disk state.old m disk.old
        → StaysStanding D.Disk m disk.old disk.new }
    ensures stands { (m : Standing K)
        → IsOpenAt D.Disk state.old m disk.old
        → OnOk result (IsOpenInSession D.Disk state.new m disk.new) }
    ensures rooted { (m : Standing K)
        → IsOpenAt D.Disk state.old m disk.old
        → OnOk result (IsRooted D.Disk state.new m disk.new) }
    ensures alone { (m : Standing K) (s : State K)
        → IsOpenAlone D.Disk state.old m s disk.old
        → OnOk result (IsOpenAlone D.Disk state.new m (root s) disk.new) }
    ensures behind { (m : Standing K)
        → OnErr result (StaysOpen D.Disk state.old state.new m disk.old disk.new) }
    ensures books { AreBooksAfter result state.old state.new }
    ensures room { HasRoom state.old.shape next.new }
    ensures durable { OnOk result (IsSynced D.Disk disk.new) }
    ensures changes { Changes D.Disk KeepsLength disk.old disk.new }
    ensures causes { HasCauses D.Disk MayRefuseClosing disk.old disk.new result }
    ensures ticks { steps.new ≡ steps.old + 1 }
{
    close(disk, state, steps)?;
    match write_root(disk, state, next) {
        Ok(()) => {}
        Err(DiskFailed) => return Err(Refusal::WriteFault),
    }
    match clear_idle(disk, state) {
        Ok(()) => Ok(()),
        Err(DiskFailed) => Err(Refusal::WriteFault),
    }
}
