//! A batch that is committed, and a half of the journal that is cleared.
ghost use Rattle.std.specs.Prelude.{◌≡◌, ◌<◌, ◌≤◌, ◌*◌, ℕ, IsTrue, OnOk, OnErr};
ghost use Rattle.grid_types.specs.declared.sizes.TheConstants.{PAGE_BYTES};
ghost use Rattle.grid_types.specs.Halves.{half_number};
ghost use Rattle.grid_types.specs.Shapes.{file_pages, slot_gate_at};
ghost use Rattle.disk_trait.specs.Calls.{Changes, IsSynced};
ghost use Rattle.disk_trait.specs.Causes.{HasCause};
ghost use Rattle.disk_trait.specs.Disk.{Agrees};
ghost use Rattle.grid_model.specs.Lawful.{IsBatch};
ghost use Rattle.journal_slots.specs.Batches.{batch_of};
ghost use Rattle.journal_slots.specs.Committing.{BatchStep};
ghost use Rattle.file_images.specs.Kept.{Kept};
ghost use Rattle.file_images.specs.Meets.{Meets};
ghost use Rattle.file_images.specs.Steps.{IsNextSlot, with_doubt, with_slot, with_loose, with_shut};
ghost use Rattle.file_sections.specs.Sections.{StaysShown, IsIdleHalf};

use disk_trait::{Disk, DiskFailed};
use grid_types::{Geometry, Half};
use journal_slots::{Batch, commit_batch};

/// Commits a batch on the next slot of the current half, on which nothing is: at each moment it is in doubt there; then it
/// counts there, or after a failure it stays in doubt.
pub fn commit<const K: usize, D: Disk>(
    disk: &mut D,
    geometry: &Geometry,
    half: Half,
    slot: u32,
    batch: &Batch<K>,
) -> Result<(), DiskFailed>
    requires inside { slot < geometry.now.shape.slots }
    requires size { file_pages geometry.now.shape * PAGE_BYTES ≤ D.extent disk.old }
    requires few { K ≤ 4 }
    requires batch { IsBatch (batch_of batch.now) }
    ensures moments { (k : Kept K)
        → IsNextSlot k geometry.now.shape (half_number half) slot
        → Meets D.Disk k disk.old
        → StaysShown D.Disk (with_doubt k (batch_of batch.now)) disk.old disk.new }
    ensures placed { (k : Kept K)
        → IsNextSlot k geometry.now.shape (half_number half) slot
        → Meets D.Disk k disk.old
        → OnOk result (Meets D.Disk (with_slot k (batch_of batch.now)) disk.new) }
    ensures failed { (k : Kept K)
        → IsNextSlot k geometry.now.shape (half_number half) slot
        → Meets D.Disk k disk.old
        → OnErr result (Meets D.Disk (with_doubt k (batch_of batch.now)) disk.new) }
    ensures durable { OnOk result (IsSynced D.Disk disk.new) }
    ensures changes { Changes D.Disk
        (BatchStep geometry.now.shape (half_number half) slot (batch_of batch.now))
        disk.old disk.new }
    ensures cause { HasCause (D.write_count disk.old) (D.write_count disk.new) result }
{
    commit_batch(disk, geometry, half, slot, batch)
}

/// Clears the used slots of the half that is not current: at each moment their gates may be anything; then no slot of it is
/// used, or after a failure it may be cleared again.
pub fn clear_half<D: Disk>(
    disk: &mut D,
    geometry: &Geometry,
    half: Half,
    used: u32,
) -> Result<(), DiskFailed>
    requires inside { used ≤ geometry.now.shape.slots }
    requires size { file_pages geometry.now.shape * PAGE_BYTES ≤ D.extent disk.old }
    ensures moments { (K : ℕ) (k : Kept K)
        → IsIdleHalf k geometry.now.shape (half_number half) used
        → Meets D.Disk k disk.old
        → StaysShown D.Disk (with_loose k (half_number half)) disk.old disk.new }
    ensures cleared { (K : ℕ) (k : Kept K)
        → IsIdleHalf k geometry.now.shape (half_number half) used
        → Meets D.Disk k disk.old
        → OnOk result (Meets D.Disk (with_shut k (half_number half)) disk.new) }
    ensures failed { (K : ℕ) (k : Kept K)
        → IsIdleHalf k geometry.now.shape (half_number half) used
        → Meets D.Disk k disk.old
        → OnErr result (Meets D.Disk (with_loose k (half_number half)) disk.new) }
    ensures durable { 1 ≤ used → OnOk result (IsSynced D.Disk disk.new) }
    ensures changes { Changes D.Disk
        (Agrees (slot_gate_at geometry.now.shape (half_number half) 0) used)
        disk.old disk.new }
    ensures cause { HasCause (D.write_count disk.old) (D.write_count disk.new) result }
{
    journal_slots::clear_half(disk, geometry, half, used)
}
