//! A new session takes a file over, once all is redone: a root of its own at the front.
ghost use Rattle.std.specs.Prelude.{◌≡◌, ◌<◌, ◌≤◌, ◌+◌, ◌*◌, ◌^◌, None, OnOk, OnErr};
ghost use Rattle.grid_types.specs.declared.sizes.TheConstants.{PAGE_BYTES};
ghost use Rattle.grid_types.specs.Shapes.{file_pages};
ghost use Rattle.disk_trait.specs.Calls.{Changes, IsSynced, HasCauses};
ghost use Rattle.disk_trait.specs.Causes.{HasCause};
ghost use Rattle.file_books.specs.Effects.{session_books};
ghost use Rattle.file_roots.specs.Refusals.{MayRefuseClosing};
ghost use Rattle.file_images.specs.Leads.{Standing};
ghost use Rattle.file_state.specs.Roots.{HasRoom};
ghost use Rattle.file_standing.specs.Open.{IsOpenAt, StaysStanding};
ghost use Rattle.checkpoints.specs.Checkpoints.{IsRooted, checkpointed_books};
ghost use Rattle.checkpoints.specs.Disks.{KeepsLength};
ghost use Rattle.file_opening.specs.UnderWay.{IsRedone, IsReopened, IsNextSession};

use checkpoints::{checkpoint, clear_journal};
use disk_trait::{Disk, DiskFailed, Steps};
use file_sections::sync;
use file_state::FileState;
use grid_types::Refusal;
use linear_scales::Root;
use std::sync::ledger::Ledger;

/// What was redone is put on the disk for good, and a new session begins.
fn settle<const K: usize, D: Disk>(disk: &mut D, state: &mut FileState<K>) -> Result<(), DiskFailed>
    requires session { state.old.session < 2 ^ 63 }
    ensures moments { (m : Standing K)
        → IsRedone D.Disk state.old disk.old m
        → StaysStanding D.Disk m disk.old disk.new }
    ensures stands { (m : Standing K)
        → IsRedone D.Disk state.old disk.old m
        → OnOk result (IsOpenAt D.Disk state.new m disk.new) }
    ensures books { OnOk result (state.new ≡ session_books state.old) }
    ensures changes { Changes D.Disk KeepsLength disk.old disk.new }
    ensures cause { HasCause (D.write_count disk.old) (D.write_count disk.new) result }
{
    sync(disk)?;
    state.begin_session();
    Ok(())
}

/// A root of a new session is written at the front of a file of which all is redone.
fn root_anew<const K: usize, D: Disk, L: Ledger>(
    disk: &mut D,
    state: &mut FileState<K>,
    next: &mut Root<K>,
    steps: &mut Steps<L>,
) -> Result<(), Refusal>
    requires room { HasRoom state.old.shape next.old }
    requires number { state.old.number < 2 ^ 63 }
    requires session { state.old.session < 2 ^ 63 }
    requires size { file_pages state.old.shape * PAGE_BYTES ≤ D.extent disk.old }
    ensures moments { (m : Standing K)
        → IsRedone D.Disk state.old disk.old m
        → StaysStanding D.Disk m disk.old disk.new }
    ensures rooted { (m : Standing K)
        → IsRedone D.Disk state.old disk.old m
        → OnOk result (IsRooted D.Disk state.new m disk.new) }
    ensures books { OnOk result (state.new ≡ checkpointed_books (session_books state.old)) }
    ensures room { OnOk result (HasRoom state.old.shape next.new) }
    ensures durable { OnOk result (IsSynced D.Disk disk.new) }
    ensures changes { Changes D.Disk KeepsLength disk.old disk.new }
    ensures causes { HasCauses D.Disk MayRefuseClosing disk.old disk.new result }
    ensures ticks { steps.new ≤ steps.old + 1 }
{
    match settle(disk, state) {
        Ok(()) => {}
        Err(DiskFailed) => return Err(Refusal::WriteFault),
    }
    checkpoint(disk, state, next, steps)
}

/// A new session takes a file over of which all is redone: its root stands at the front, and the journal is clear. What was
/// redone is put on the disk for good before. After a failure the disk has the file as it was, and may be opened again.
pub(crate) fn renew<const K: usize, D: Disk, L: Ledger>(
    disk: &mut D,
    state: &mut FileState<K>,
    next: &mut Root<K>,
    steps: &mut Steps<L>,
) -> Result<(), Refusal>
    requires room { HasRoom state.old.shape next.old }
    requires number { state.old.number < 2 ^ 63 }
    requires session { state.old.session < 2 ^ 63 }
    requires size { file_pages state.old.shape * PAGE_BYTES ≤ D.extent disk.old }
    ensures moments { (m : Standing K)
        → IsRedone D.Disk state.old disk.old m
        → StaysStanding D.Disk m disk.old disk.new }
    ensures reopened { (m : Standing K)
        → IsRedone D.Disk state.old disk.old m
        → OnOk result (IsReopened D.Disk state.new disk.new m) }
    ensures rises { OnOk result (IsNextSession state.old state.new) }
    ensures room { OnOk result (HasRoom state.old.shape next.new) }
    ensures durable { OnOk result (IsSynced D.Disk disk.new) }
    ensures changes { Changes D.Disk KeepsLength disk.old disk.new }
    ensures causes { HasCauses D.Disk MayRefuseClosing disk.old disk.new result }
    ensures ticks { steps.new ≤ steps.old + 1 }
{
    root_anew(disk, state, next, steps)?;
    match clear_journal(disk, state) {
        Ok(()) => Ok(()),
        Err(DiskFailed) => Err(Refusal::WriteFault),
    }
}
