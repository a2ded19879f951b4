//! The shape of a file: what it is made with, and what is counted in it.
ghost use Rattle.std.specs.Prelude.{◌≡◌, ◌↔◌, IsTrue};
ghost use Rattle.grid_types.specs.Shapes.{has_lawful_buckets, has_lawful_pages, has_lawful_bounds, is_shape, file_pages};

use crate::{
    FEWEST_PAGES, LEAST_RECORDS, MOST_ATTRIBUTES, MOST_BOUNDARIES, MOST_CELLS, MOST_PAGES,
    MOST_RECORDS, MOST_SLOTS,
};

/// What a file is made with. It never changes.
#[derive(Clone, Copy, Debug, PartialEq, Eq)]
pub struct Shape {
    /// The number of attributes, 1 to 4.
    pub k: u8,
    /// How many records a bucket holds, 2 to 48.
    pub capacity: u16,
    /// The number of data pages, 8 to 65,536.
    pub pages: u32,
    /// The number of slots in each half of the journal, 1 to 4,000.
    pub slots: u32,
    /// The most boundaries that a scale has, 1 to 1,000.
    pub boundaries: u32,
    /// The most cells that the directory has, 1 to 1,000,000.
    pub cells: u32,
}

/// What is counted in a file.
#[derive(Clone, Copy, Debug, PartialEq, Eq)]
pub struct Stat {
    pub records: u64,
    pub cells: u32,
    pub buckets: u32,
    /// How many data pages hold nothing, neither now nor for the newest root.
    pub free: u32,
}

/// Whether the part of a shape that says how large things may grow is within its limits.
fn has_lawful_bounds(shape: &Shape) -> bool
    ensures { result ≡ has_lawful_bounds shape.now }
{
    1 <= shape.boundaries
        && shape.boundaries <= MOST_BOUNDARIES as u32
        && 1 <= shape.cells
        && shape.cells <= MOST_CELLS as u32
}

/// Whether the pages and the slots of a shape are within their limits.
fn has_lawful_pages(shape: &Shape) -> bool
    ensures { result ≡ has_lawful_pages shape.now }
{
    FEWEST_PAGES as u32 <= shape.pages
        && shape.pages <= MOST_PAGES as u32
        && 1 <= shape.slots
        && shape.slots <= MOST_SLOTS as u32
}

/// Whether the attributes and the capacity of a shape are within their limits.
fn has_lawful_buckets(shape: &Shape) -> bool
    ensures { result ≡ has_lawful_buckets shape.now }
{
    1 <= shape.k
        && shape.k <= MOST_ATTRIBUTES as u8
        && LEAST_RECORDS as u16 <= shape.capacity
        && shape.capacity <= MOST_RECORDS as u16
}

impl Shape {
    /// Whether each number is within its limits.
    #[tactic(auto, unfolding(crate::specs::Shapes::is_shape))]
    pub fn lawful(&self) -> bool
        ensures { result ≡ is_shape self.now }
    {
        has_lawful_buckets(self) && has_lawful_pages(self) && has_lawful_bounds(self)
    }

    /// How many pages a file of this shape has.
    #[tactic(auto, unfolding(crate::specs::Shapes::file_pages))]
    pub fn file_pages(&self) -> u64
        requires { IsTrue (is_shape self.now) }
        ensures { result ≡ file_pages self.now }
    {
        let pages: u64 = self.pages.into();
        let slots: u64 = self.slots.into();
        let area = 9 + (pages + 999) / 1000;
        4 + 2 * area + 2 * slots + pages
    }
}
