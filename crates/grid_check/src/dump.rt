//! The table of a file.
use grid_types::Rows;

/// The table of a file, and where the file stands.
#[derive(Drop)]
pub struct Dump<const K: usize> {
    /// The place of the last update.
    pub front: u64,
    /// The records, in the order of their keys.
    pub rows: Rows<K>,
}
