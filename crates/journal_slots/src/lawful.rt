//! Whether the fields of a batch are lawful.
ghost use Rattle.std.specs.Prelude.{◌↔◌, IsTrue};
ghost use Rattle.journal_slots.specs.Batches.{batch_of};
ghost use Rattle.journal_slots.specs.Reading.{NoteFits, AllNotesFit, AreLawfulBatchFields};

use crate::Batch;
use grid_types::{LayoutChange, LoggedUpdate, Update};

/// The last place at which a batch may begin.
const LAST_PLACE: u64 = 9_223_372_036_854_775_792;

fn fits<const K: usize>(noted: &LoggedUpdate<K>) -> bool
    ensures { IsTrue result ↔ NoteFits noted.now.update noted.now.note }
{
    match &noted.update {
        Update::Put(_) => match &noted.note {
            LayoutChange::Plain => true,
            LayoutChange::Cut { cut, .. } => (cut.attribute as usize) < K,
            LayoutChange::Merge { .. } => false,
        },
        Update::Remove(_) => match &noted.note {
            LayoutChange::Plain => true,
            LayoutChange::Cut { .. } => false,
            LayoutChange::Merge { .. } => true,
        },
    }
}

fn all_fit<const K: usize>(updates: &[LoggedUpdate<K>]) -> bool
    ensures { IsTrue result ↔ AllNotesFit updates.now }
{
    for noted in updates {
        if !fits(noted) {
            return false;
        }
    }
    true
}

/// Whether the fields of the batch are lawful, beside the ranges of their types.
pub fn is_lawful<const K: usize>(batch: &Batch<K>) -> bool
    ensures { IsTrue result ↔ AreLawfulBatchFields (batch_of batch.now) }
{
    batch.updates.len() >= 1
        && batch.first >= 1
        && batch.first <= LAST_PLACE
        && all_fit(batch.updates.as_slice())
}
