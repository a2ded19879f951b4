//! What an update does to the layout of the file.

use crate::Update;

/// Where a bucket is cut: the records whose value in the attribute lies below `value` go left, the others right.
#[derive(Clone, Copy, Debug, PartialEq, Eq)]
pub struct Cut {
    pub attribute: u8,
    pub value: u64,
    /// Whether the value becomes a new boundary of the attribute's scale.
    pub fresh: bool,
}

/// What an update does to the layout.
#[derive(Clone, Copy, Debug, Default, PartialEq, Eq)]
pub enum LayoutChange {
    /// Nothing.
    #[default]
    Plain,
    /// Its bucket is cut, and the right part gets that number.
    Cut { cut: Cut, right: u32 },
    /// Its bucket is joined with the bucket of that number.
    Merge { with: u32 },
}

/// An update, with what it does to the layout.
#[derive(Debug, Default, Drop, PartialEq, Eq)]
pub struct LoggedUpdate<const K: usize> {
    pub update: Update<K>,
    pub note: LayoutChange,
}
