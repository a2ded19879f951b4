//! A batch of one update, and its place on the next slot.
ghost use Rattle.std.specs.Prelude.{◌≡◌, ◌<◌, ◌≤◌, ◌+◌, ◌*◌, ◌^◌, ◌∷◌, [], OnOk, OnErr};
ghost use Rattle.grid_types.specs.declared.sizes.TheConstants.{MOST_UPDATES, PAGE_BYTES};
ghost use Rattle.grid_types.specs.Shapes.{file_pages};
ghost use Rattle.disk_trait.specs.Calls.{Changes, IsSynced};
ghost use Rattle.disk_trait.specs.Causes.{HasCause};
ghost use Rattle.grid_model.specs.Lawful.{IsLoggedUpdate};
ghost use Rattle.journal_slots.specs.Batches.{batch_of};
ghost use Rattle.journal_slots.specs.Committing.{BatchStep};
ghost use Rattle.file_images.specs.Kept.{Kept};
ghost use Rattle.file_images.specs.Meets.{Meets};
ghost use Rattle.file_images.specs.Steps.{IsNextSlot, with_doubt, with_slot};
ghost use Rattle.file_sections.specs.Sections.{StaysShown};
ghost use Rattle.file_standing.specs.Steps.{batch_of_one};
ghost use Rattle.commits.specs.Commits.{logged};

use disk_trait::{Disk, DiskFailed};
use file_sections::commit;
use file_state::FileState;
use grid_types::{LayoutChange, LoggedUpdate, Record, Update};
use journal_slots::Batch;

/// The same update.
fn copy_of<const K: usize>(update: &Update<K>) -> Update<K>
    ensures { result ≡ update.now }
{
    match update {
        Update::Put(row) => Update::Put(Record {
            key: row.key,
            value: row.value.copy(),
        }),
        Update::Remove(key) => Update::Remove(*key),
    }
}

/// Makes `batch` the batch of one update, whatever it was before.
fn fill<const K: usize>(
    batch: &mut Batch<K>,
    session: u64,
    first: u64,
    update: &Update<K>,
    note: LayoutChange,
)
    ensures { batch_of batch.new ≡ record {
      session = session;
      first = first;
      updates = logged update.now note ∷ [];
    } }
{
    batch.session = session;
    batch.first = first;
    batch.updates.clear();
    batch.updates.push(LoggedUpdate {
        update: copy_of(update),
        note,
    });
}

/// Commits the batch of one update at the next place on the next slot of the current half, on which nothing is: at each
/// moment it is in doubt there; then it counts there, or after a failure it stays in doubt. The batch is made in `batch`.
pub(crate) fn place_one<const K: usize, D: Disk>(
    disk: &mut D,
    state: &FileState<K>,
    slot: u32,
    update: &Update<K>,
    note: LayoutChange,
    batch: &mut Batch<K>,
) -> Result<(), DiskFailed>
    requires logged { IsLoggedUpdate (logged update.now note) }
    requires place { state.now.front + MOST_UPDATES < 2 ^ 63 }
    requires inside { slot < state.now.shape.slots }
    requires few { K ≤ 4 }
    requires size { file_pages state.now.shape * PAGE_BYTES ≤ D.extent disk.old }
    ensures moments { (k : Kept K)
        → IsNextSlot k state.now.shape state.now.half slot
        → Meets D.Disk k disk.old
        → StaysShown D.Disk (with_doubt k (batch_of_one state.now update.now note))
        disk.old disk.new }
    ensures placed { (k : Kept K)
        → IsNextSlot k state.now.shape state.now.half slot
        → Meets D.Disk k disk.old
        → OnOk result (Meets D.Disk
        (with_slot k (batch_of_one state.now update.now note)) disk.new) }
    ensures failed { (k : Kept K)
        → IsNextSlot k state.now.shape state.now.half slot
        → Meets D.Disk k disk.old
        → OnErr result (Meets D.Disk
        (with_doubt k (batch_of_one state.now update.now note)) disk.new) }
    ensures durable { OnOk result (IsSynced D.Disk disk.new) }
    ensures changes { Changes D.Disk
        (BatchStep state.now.shape state.now.half slot
        (batch_of_one state.now update.now note))
        disk.old disk.new }
    ensures cause { HasCause (D.write_count disk.old) (D.write_count disk.new) result }
{
    let first = state.front() + 1;
    fill(batch, state.session(), first, update, note);
    commit(disk, &state.geometry(), state.half(), slot, batch)
}
