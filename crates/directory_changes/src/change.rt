//! What a change does to the directory.
use grid_types::CellBox;

/// What a change does to the directory.
#[derive(Clone, Copy, Debug, PartialEq, Eq)]
pub enum DirectoryChange<const K: usize> {
    /// Nothing.
    Nothing,
    /// The cells of a box get another bucket.
    Patch {
        cells: CellBox<K>,
        bucket: u32,
    },
    /// An interval of an attribute is split in two, and of the refined directory the cells of a box get another bucket.
    Grow {
        attribute: u8,
        interval: u32,
        cells: CellBox<K>,
        bucket: u32,
    },
}
