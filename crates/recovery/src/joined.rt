//! Batches that were taken.
use journal_slots::Batches;

/// The batches that join a place without a gap.
#[derive(Drop)]
pub struct Joined<const K: usize> {
    /// The batches, in the order of their places.
    pub taken: Batches<K>,
    /// The place of the last update of the last one.
    pub front: u64,
}
