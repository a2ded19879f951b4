//! What a header page says of a root.

use arrayvec::ArrayVec;
use grid_types::MOST_ATTRIBUTES;

/// What a header page says of a root, in a file with any number of attributes. It takes no memory.
#[derive(Debug, Drop, PartialEq, Eq)]
pub struct RootHeader {
    pub number: u64,
    pub session: u64,
    /// The place up to which the root has the updates.
    pub front: u64,
    pub records: u64,
    /// How many boundaries the scale of each attribute has.
    pub boundaries: ArrayVec<u32, MOST_ATTRIBUTES>,
    /// How many parts the directory has.
    pub parts: u32,
    pub buckets: u32,
}
