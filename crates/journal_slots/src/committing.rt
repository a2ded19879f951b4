//! A batch that is committed: written, and then made to count.
ghost use Rattle.std.specs.Prelude.{◌≡◌, ◌<◌, ◌≤◌, ◌*◌, IsTrue, OnOk};
ghost use Rattle.grid_types.specs.declared.sizes.TheConstants.{PAGE_BYTES};
ghost use Rattle.grid_types.specs.Halves.{half_number};
ghost use Rattle.grid_types.specs.Shapes.{file_pages};
ghost use Rattle.disk_trait.specs.Causes.{HasCause};
ghost use Rattle.disk_trait.specs.Calls.{Changes, IsSynced};
ghost use Rattle.grid_model.specs.Lawful.{IsBatch};
ghost use Rattle.grid_model.specs.Slots.{IsCommitted};
ghost use Rattle.journal_slots.specs.Batches.{batch_of};
ghost use Rattle.journal_slots.specs.Committing.{BatchStep};

use crate::{Batch, open_gate, write_batch};
use disk_trait::{Disk, DiskFailed};
use grid_types::{Geometry, Half};

/// Writes a batch on its slot page, and once it is on the disk opens its gate. Where the gate was closed before, the batch
/// counts as a whole or not at all at each moment, also where the call fails: that is `committing_law`.
pub fn commit_batch<const K: usize, D: Disk>(
    disk: &mut D,
    geometry: &Geometry,
    half: Half,
    slot: u32,
    batch: &Batch<K>,
) -> Result<(), DiskFailed>
    requires inside { slot < geometry.now.shape.slots }
    requires size { file_pages geometry.now.shape * PAGE_BYTES ≤ D.extent disk.old }
    requires few { K ≤ 4 }
    requires batch { IsBatch (batch_of batch.now) }
    ensures committed { IsTrue (D.honest disk.old)
        → OnOk result (IsCommitted geometry.now.shape (half_number half) slot
        (batch_of batch.now) (D.seen disk.new)) }
    ensures durable { OnOk result (IsSynced D.Disk disk.new) }
    ensures changes { Changes D.Disk
        (BatchStep geometry.now.shape (half_number half) slot (batch_of batch.now))
        disk.old disk.new }
    ensures cause { HasCause (D.write_count disk.old) (D.write_count disk.new) result }
{
    write_batch(disk, geometry, half, slot, batch)?;
    open_gate(disk, geometry, half, slot)
}
