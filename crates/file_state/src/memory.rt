//! The parts of what memory keeps of a file.
use grid_types::{Geometry, Half};
use linear_scales::Scales;
use page_states::PageStates;

/// How far the file is, and what is counted in it.
#[derive(Clone, Copy, Debug)]
pub(crate) struct Counts {
    pub(crate) session: u64,
    pub(crate) front: u64,
    pub(crate) records: u64,
    pub(crate) buckets: u32,
}

/// The number and the place of the newest root, and the place of one that is being written or was tried.
#[derive(Clone, Copy, Debug)]
pub(crate) struct Roots {
    pub(crate) number: u64,
    pub(crate) place: u64,
    pub(crate) trying: Option<u64>,
}

/// The current half of the journal, and how many slots of each half are used.
#[derive(Clone, Copy, Debug)]
pub(crate) struct Journal {
    pub(crate) half: Half,
    pub(crate) first_used: u32,
    pub(crate) second_used: u32,
}

/// What memory keeps of a file.
#[derive(Drop)]
pub(crate) struct Memory<const K: usize> {
    pub(crate) geometry: Geometry,
    pub(crate) counts: Counts,
    pub(crate) roots: Roots,
    pub(crate) journal: Journal,
    pub(crate) scales: Scales<K>,
    pub(crate) pages: PageStates,
    /// Each bucket number below this one has a page.
    pub(crate) unused_from: u32,
}
