//! What a root says.
use crate::scales::Scales;
use grid_types::PageList;

/// Stands in a bucket table where no bucket has the number.
pub const NOWHERE: u32 = u32::MAX;

/// A root of a file: its fields on a header page, and what stands in its table area.
#[derive(Drop)]
pub struct Root<const K: usize> {
    pub number: u64,
    pub session: u64,
    /// The place of the last update that the root's pages have.
    pub front: u64,
    pub records: u64,
    pub scales: Scales<K>,
    /// The data page of each directory part.
    pub parts: PageList,
    /// The data page of each bucket number, or `NOWHERE`.
    pub table: PageList,
}
