//! A change that is published.
use directory_changes::DirectoryChange;
use file_books::RecordChange;
use grid_types::LayoutChange;

/// A change of a bucket: what it does to the layout, to the directory and to the number of records.
#[derive(Clone, Copy, Debug, PartialEq, Eq)]
pub struct Change<const K: usize> {
    pub bucket: u32,
    pub note: LayoutChange,
    pub directory: DirectoryChange<K>,
    pub records: RecordChange,
}
