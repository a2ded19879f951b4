//! Boxes of cells.

/// The cells between two corners, both included in each attribute. Where a low interval is above the high one, it has none.
#[derive(Clone, Copy, Debug, PartialEq, Eq)]
pub struct CellBox<const K: usize> {
    pub lo: [u32; K],
    pub hi: [u32; K],
}
