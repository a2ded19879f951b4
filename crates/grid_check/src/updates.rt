//! The updates of a journal: the keys that they name, and how many records they leave.
ghost use Rattle.std.specs.Prelude.{◌≡◌, ◌<◌, ◌≤◌, ◌+◌, ◌^◌, [], ◌∷◌, flat_map, length, OnOk, IfOk};
ghost use Rattle.grid_types.specs.declared.layout_change.LoggedUpdate.{LoggedUpdate};
ghost use Rattle.grid_types.specs.declared.sizes.TheConstants.{MOST_ATTRIBUTES};
ghost use Rattle.grid_model.specs.Notes.{updated_key};
ghost use Rattle.grid_check.specs.Marks.{with_one as one_more, without_one as one_fewer, HaveMarks, KeepsMarks, NoneMarked, CountsRecords};

use crate::marks::turn_mark;
use grid_types::{Key, LoggedUpdate, Update};
use journal_slots::Batches;
use std::alloc::{AllocError, Global};
use std::collections::BTreeMap;

/// The key that an update is about.
fn key_of<const K: usize>(update: &Update<K>) -> &Key<K>
    ensures { result.now.numbers ≡ updated_key update.now }
{
    match update {
        Update::Put(row) => &row.key,
        Update::Remove(key) => key,
    }
}

/// Gives the key of each update a mark that is not set. Its only error is want of memory.
fn name_keys<const K: usize>(
    updates: &[LoggedUpdate<K>],
    marks: &mut BTreeMap<[u64; K], bool>,
) -> Result<(), AllocError>
    ensures named { OnOk result (HaveMarks marks.new updates.now) }
    ensures keeps { KeepsMarks marks.old marks.new }
    ensures unmarked { NoneMarked marks.old → NoneMarked marks.new }
{
    for logged in updates {
        marks.insert(key_of(&logged.update).numbers, false)?;
    }
    Ok(())
}

/// The keys that the updates of batches name, none marked. Its only error is want of memory.
pub fn keys_named<const K: usize>(
    alloc: Global,
    taken: &Batches<K>,
) -> Result<BTreeMap<[u64; K], bool>, AllocError>
    requires few { K ≤ MOST_ATTRIBUTES }
    ensures named { IfOk result (λ m. HaveMarks m (flat_map (λ b. b.updates) taken.now)) }
    ensures unmarked { IfOk result NoneMarked }
{
    let mut marks = BTreeMap::new(alloc);
    for batch in taken.list() {
        name_keys(batch.updates.as_slice(), &mut marks)?;
    }
    Ok(marks)
}

/// How many records there are behind a put, by the mark that its key had.
fn with_one(mark: Option<bool>, records: u64) -> u64
    requires { records + 1 < 2 ^ 64 }
    ensures { result ≡ one_more mark records }
{
    match mark {
        Some(false) => records + 1,
        _ => records,
    }
}

/// How many records there are behind a removal, by the mark that its key had.
fn without_one(mark: Option<bool>, records: u64) -> u64
    ensures { result ≡ one_fewer mark records }
{
    match mark {
        Some(true) => records.saturating_sub(1),
        _ => records,
    }
}

/// How many records an update leaves, where so many were there before it. The mark of its key says whether it was there, and
/// then whether it is.
fn count_update<const K: usize>(
    logged: &LoggedUpdate<K>,
    marks: &mut BTreeMap<[u64; K], bool>,
    records: u64,
) -> u64
    requires { records + 1 < 2 ^ 64 }
    ensures { CountsRecords (logged.now ∷ []) marks.old marks.new records result }
{
    match &logged.update {
        Update::Put(row) => with_one(turn_mark(marks, &row.key, true), records),
        Update::Remove(key) => without_one(turn_mark(marks, key, false), records),
    }
}

/// How many records the updates of a batch leave.
fn count_batch<const K: usize>(
    updates: &[LoggedUpdate<K>],
    marks: &mut BTreeMap<[u64; K], bool>,
    records: u64,
) -> u64
    requires { records + length updates.now < 2 ^ 64 }
    ensures { CountsRecords updates.now marks.old marks.new records result }
{
    let mut left = records;
    for logged in updates {
        left = count_update(logged, marks, left);
    }
    left
}

/// How many records the updates of batches leave, one after the other.
pub fn count_updates<const K: usize>(
    taken: &Batches<K>,
    marks: &mut BTreeMap<[u64; K], bool>,
    records: u64,
) -> u64
    requires few { K ≤ MOST_ATTRIBUTES }
    requires room { records + length (flat_map (λ b. b.updates) taken.now) < 2 ^ 64 }
    ensures { CountsRecords (flat_map (λ b. b.updates) taken.now) marks.old marks.new records
        result }
{
    let mut left = records;
    for batch in taken.list() {
        left = count_batch(batch.updates.as_slice(), marks, left);
    }
    left
}
