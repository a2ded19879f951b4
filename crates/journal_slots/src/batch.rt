//! Batches.

use arrayvec::ArrayVec;
use grid_types::{LoggedUpdate, MOST_UPDATES};

/// Updates that count together or not at all, in the order of their places.
#[derive(Drop)]
pub struct Batch<const K: usize> {
    /// The session that writes it.
    pub session: u64,
    /// The place of the first update.
    pub first: u64,
    pub updates: ArrayVec<LoggedUpdate<K>, MOST_UPDATES>,
}
