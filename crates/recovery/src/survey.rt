//! What is found in a file.
use grid_types::Geometry;
use journal_slots::Batches;
use linear_scales::Root;

/// What is found in a file before its data pages are read.
#[derive(Drop)]
pub struct Survey<const K: usize> {
    pub geometry: Geometry,
    /// The newest root.
    pub root: Root<K>,
    /// The batches that join the root's front without a gap, in order.
    pub taken: Batches<K>,
    /// The place that they reach: that of their last update, or the root's front.
    pub front: u64,
    /// How many slots of each half of the journal are in use: those up to the last gate that is not 0.
    pub used: [u32; 2],
}
