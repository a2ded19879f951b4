//! The header page of the next root is closed.
ghost use Rattle.std.specs.Prelude.{◌≡◌, ◌<◌, ◌≤◌, ◌+◌, ◌*◌, ◌^◌, ℕ, OnOk, OnErr};
ghost use Rattle.grid_types.specs.declared.sizes.TheConstants.{PAGE_BYTES};
ghost use Rattle.grid_types.specs.Shapes.{file_pages};
ghost use Rattle.disk_trait.specs.Calls.{Changes, IsSynced, HasCauses};
ghost use Rattle.file_roots.specs.Refusals.{MayRefuseClosing};
ghost use Rattle.file_images.specs.Kept.{Kept};
ghost use Rattle.file_images.specs.Meets.{Meets};
ghost use Rattle.file_images.specs.Steps.{with_closed};
ghost use Rattle.file_sections.specs.Sections.{StaysShown, IsNextNumber};
ghost use Rattle.file_books.specs.Effects.{closed_books};
ghost use Rattle.checkpoints.specs.Disks.{KeepsLength};

use disk_trait::{Disk, Steps};
use file_sections::close_root;
use file_state::FileState;
use grid_types::Refusal;
use std::sync::ledger::Ledger;

/// Closes the header page of the root behind the newest one.
pub(crate) fn close<const K: usize, D: Disk, L: Ledger>(
    disk: &mut D,
    state: &mut FileState<K>,
    steps: &mut Steps<L>,
) -> Result<(), Refusal>
    requires more { state.old.number < 2 ^ 63 }
    requires size { file_pages state.old.shape * PAGE_BYTES ≤ D.extent disk.old }
    ensures moments { (k : Kept K)
        → IsNextNumber k state.old.shape (state.old.number + 1)
        → Meets D.Disk k disk.old
        → StaysShown D.Disk k disk.old disk.new }
    ensures closed { (k : Kept K)
        → IsNextNumber k state.old.shape (state.old.number + 1)
        → Meets D.Disk k disk.old
        → OnOk result (Meets D.Disk (with_closed k) disk.new) }
    ensures again { (k : Kept K)
        → IsNextNumber k state.old.shape (state.old.number + 1)
        → Meets D.Disk k disk.old
        → OnErr result (Meets D.Disk k disk.new) }
    ensures books { OnOk result (state.new ≡ closed_books state.old) }
    ensures same { OnErr result (state.new ≡ state.old) }
    ensures durable { OnOk result (IsSynced D.Disk disk.new) }
    ensures changes { Changes D.Disk KeepsLength disk.old disk.new }
    ensures causes { HasCauses D.Disk MayRefuseClosing disk.old disk.new result }
    ensures ticks { steps.new ≡ steps.old + 1 }
{
    let geometry = state.geometry();
    let number = state.number() + 1;
    close_root(disk, &geometry, number, steps)?;
    state.closed();
    Ok(())
}
