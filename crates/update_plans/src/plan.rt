//! What an update does.
use directory_changes::DirectoryChange;
use file_books::RecordChange;
use grid_types::{Data, LayoutChange};

/// What an update does, as decided before any page is claimed. The new pages of its buckets stand in the buffers that were
/// lent.
#[derive(Debug, Drop, PartialEq, Eq)]
pub struct Plan<const K: usize> {
    /// The number of the bucket that has the key.
    pub bucket: u32,
    /// What it does to the layout.
    pub note: LayoutChange,
    /// What it does to the directory.
    pub directory: DirectoryChange<K>,
    /// What it does to the number of records.
    pub records: RecordChange,
    /// The data that the key had.
    pub old: Option<Data>,
    /// The free pages that it needs: the new ones, and for a put one to spare.
    pub need: u32,
    /// How many owners get a new page.
    pub pages: u32,
}
