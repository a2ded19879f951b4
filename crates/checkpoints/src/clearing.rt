//! The half of the journal that is not current is cleared.
ghost use Rattle.std.specs.Prelude.{◌≡◌, ◌≤◌, ◌*◌, ℕ, OnOk, OnErr};
ghost use Rattle.grid_types.specs.declared.sizes.TheConstants.{PAGE_BYTES};
ghost use Rattle.grid_types.specs.Halves.{half_number};
ghost use Rattle.grid_types.specs.Shapes.{file_pages};
ghost use Rattle.disk_trait.specs.Calls.{Changes, IsSynced};
ghost use Rattle.disk_trait.specs.Causes.{HasCause};
ghost use Rattle.file_images.specs.Kept.{Kept};
ghost use Rattle.file_images.specs.Meets.{Meets};
ghost use Rattle.file_images.specs.Steps.{with_loose, with_shut};
ghost use Rattle.file_sections.specs.Sections.{StaysShown, IsIdleHalf};
ghost use Rattle.file_books.specs.Effects.{cleaned_books, idle_half, used_of};
ghost use Rattle.checkpoints.specs.Disks.{KeepsLength};

use disk_trait::{Disk, DiskFailed};
use file_sections::clear_half;
use file_state::FileState;
use grid_types::Half;

/// The half that is not current.
fn idle<const K: usize>(state: &FileState<K>) -> Half
    ensures { half_number result ≡ idle_half state.now }
{
    match state.half() {
        Half::First => Half::Second,
        Half::Second => Half::First,
    }
}

/// Clears the half that is not current, of which the newest root has all batches.
pub(crate) fn clear_idle<const K: usize, D: Disk>(
    disk: &mut D,
    state: &mut FileState<K>,
) -> Result<(), DiskFailed>
    requires size { file_pages state.old.shape * PAGE_BYTES ≤ D.extent disk.old }
    ensures moments { (k : Kept K)
        → IsIdleHalf k state.old.shape
        (idle_half state.old) (used_of state.old (idle_half state.old))
        → Meets D.Disk k disk.old
        → StaysShown D.Disk (with_loose k (idle_half state.old)) disk.old disk.new }
    ensures cleared { (k : Kept K)
        → IsIdleHalf k state.old.shape
        (idle_half state.old) (used_of state.old (idle_half state.old))
        → Meets D.Disk k disk.old
        → OnOk result (Meets D.Disk (with_shut k (idle_half state.old)) disk.new) }
    ensures failed { (k : Kept K)
        → IsIdleHalf k state.old.shape
        (idle_half state.old) (used_of state.old (idle_half state.old))
        → Meets D.Disk k disk.old
        → OnErr result (Meets D.Disk (with_loose k (idle_half state.old)) disk.new) }
    ensures books { OnOk result (state.new ≡ cleaned_books state.old) }
    ensures same { OnErr result (state.new ≡ state.old) }
    ensures durable { IsSynced D.Disk disk.old → OnOk result (IsSynced D.Disk disk.new) }
    ensures changes { Changes D.Disk KeepsLength disk.old disk.new }
    ensures cause { HasCause (D.write_count disk.old) (D.write_count disk.new) result }
{
    let geometry = state.geometry();
    let half = idle(state);
    let used = state.used(half);
    clear_half(disk, &geometry, half, used)?;
    state.cleaned();
    Ok(())
}
