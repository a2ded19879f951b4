//! The shape of a file and its newest root.
use grid_types::Geometry;
use linear_scales::Root;

/// What the header pages and a table area of a file say.
#[derive(Drop)]
pub struct Rooted<const K: usize> {
    pub geometry: Geometry,
    /// The newest root.
    pub root: Root<K>,
}
