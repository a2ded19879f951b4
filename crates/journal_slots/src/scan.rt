//! What a scan finds.

use crate::Batches;

/// What a scan of a half finds.
#[derive(Drop)]
pub struct Scan<const K: usize> {
    /// The batches of the session on the open slots, in order.
    pub batches: Batches<K>,
    /// How many slots are in use: those up to the last gate that is not 0.
    pub used: u32,
}
