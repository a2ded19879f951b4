//! The updates behind a root, made in a table.
ghost use Rattle.std.specs.Prelude.{◌≡◌, ◌≤◌, flat_map, fold, OnOk};
ghost use Rattle.grid_types.specs.declared.sizes.TheConstants.{MOST_ATTRIBUTES};
ghost use Rattle.grid_model.specs.Images.{logged_effect};
ghost use Rattle.grid_model.specs.Tables.{IsTable};

use grid_types::{Data, LoggedUpdate, Update};
use journal_slots::Batches;
use std::alloc::AllocError;
use std::collections::BTreeMap;

/// Makes an update. Its only error is want of memory.
fn redo_update<const K: usize>(
    logged: &LoggedUpdate<K>,
    table: &mut BTreeMap<[u64; K], Data>,
) -> Result<(), AllocError>
    ensures { IsTable table.old.entries
        → OnOk result (table.new.entries ≡ logged_effect table.old.entries logged.now) }
{
    match &logged.update {
        Update::Put(row) => {
            table.insert(row.key.numbers, row.value.copy())?;
        }
        Update::Remove(key) => {
            table.remove(&key.numbers);
        }
    }
    Ok(())
}

/// Makes the updates of a batch, in their order. Its only error is want of memory.
fn redo_batch<const K: usize>(
    updates: &[LoggedUpdate<K>],
    table: &mut BTreeMap<[u64; K], Data>,
) -> Result<(), AllocError>
    ensures { IsTable table.old.entries
        → OnOk result (table.new.entries ≡ fold logged_effect table.old.entries updates.now) }
{
    for logged in updates {
        redo_update(logged, table)?;
    }
    Ok(())
}

/// Makes the updates of batches, one batch after the other. Its only error is want of memory.
pub fn redo_all<const K: usize>(
    taken: &Batches<K>,
    table: &mut BTreeMap<[u64; K], Data>,
) -> Result<(), AllocError>
    requires few { K ≤ MOST_ATTRIBUTES }
    ensures { IsTable table.old.entries
        → OnOk result (table.new.entries
        ≡ fold logged_effect table.old.entries (flat_map (λ b. b.updates) taken.now)) }
{
    for batch in taken.list() {
        redo_batch(batch.updates.as_slice(), table)?;
    }
    Ok(())
}
