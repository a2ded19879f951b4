//! The journal is cleared behind a root that stands at the front.
ghost use Rattle.std.specs.Prelude.{◌≡◌, ◌≤◌, ◌*◌, OnOk, OnErr};
ghost use Rattle.grid_types.specs.declared.sizes.TheConstants.{PAGE_BYTES};
ghost use Rattle.grid_types.specs.Shapes.{file_pages};
ghost use Rattle.disk_trait.specs.Calls.{Changes, IsSynced};
ghost use Rattle.disk_trait.specs.Causes.{HasCause};
ghost use Rattle.file_images.specs.Leads.{Standing};
ghost use Rattle.file_standing.specs.Open.{IsOpenInSession, StaysStanding};
ghost use Rattle.checkpoints.specs.Checkpoints.{IsRooted, exchanged_books, emptied_books};
ghost use Rattle.checkpoints.specs.Disks.{KeepsLength};

use crate::clearing::clear_idle;
use disk_trait::{Disk, DiskFailed};
use file_state::FileState;

/// Clears the half of the journal that a root step leaves with used slots, if there is one: that which is current, and gives
/// its role to the clear one, or else the full one. A file that was opened ends so, with no slot used.
pub fn clear_journal<const K: usize, D: Disk>(
    disk: &mut D,
    state: &mut FileState<K>,
) -> Result<(), DiskFailed>
    requires size { file_pages state.old.shape * PAGE_BYTES ≤ D.extent disk.old }
    ensures moments { (m : Standing K)
        → IsRooted D.Disk state.old m disk.old
        → StaysStanding D.Disk m disk.old disk.new }
    ensures stands { (m : Standing K)
        → IsRooted D.Disk state.old m disk.old
        → OnOk result (IsOpenInSession D.Disk state.new m disk.new) }
    ensures behind { (m : Standing K)
        → IsRooted D.Disk state.old m disk.old
        → OnErr result (IsOpenInSession D.Disk state.new m disk.new) }
    ensures books { OnOk result (state.new ≡ emptied_books state.old) }
    ensures stopped { OnErr result (state.new ≡ exchanged_books state.old) }
    ensures durable { IsSynced D.Disk disk.old → OnOk result (IsSynced D.Disk disk.new) }
    ensures changes { Changes D.Disk KeepsLength disk.old disk.new }
    ensures cause { HasCause (D.write_count disk.old) (D.write_count disk.new) result }
{
    state.turn();
    state.closed();
    clear_idle(disk, state)
}
