//! Whether what a header page says of a root is lawful.
ghost use Rattle.std.specs.Prelude.{◌≡◌, ◌≤◌, ◌<◌, ◌^◌, ◌↔◌, IsTrue, length};
ghost use Rattle.grid_types.specs.declared.sizes.TheConstants.{MOST_ATTRIBUTES, MOST_BOUNDARIES};
ghost use Rattle.grid_model.specs.Lawful.{cells_of_counts, IsRootOn};
ghost use Rattle.root_pages.specs.Fields.{model_fields};
ghost use Rattle.root_pages.specs.Lawful.{AreAtMost, HasNumbers, HasCounts};

use crate::RootHeader;
use grid_types::{Geometry, Shape};

/// No root's number, session or front is greater.
const LAST: u64 = 1 << 63;

fn are_at_most(numbers: &[u32], limit: u32) -> bool
    ensures { IsTrue result ↔ AreAtMost limit numbers.now }
{
    for a in 0..numbers.len() {
        if numbers[a] > limit {
            return false;
        }
    }
    true
}

/// The cells that scales with so many boundaries make.
fn cells_of(boundaries: &[u32]) -> u64
    requires few { length boundaries.now ≤ MOST_ATTRIBUTES }
    requires small { AreAtMost MOST_BOUNDARIES boundaries.now }
    ensures value { result ≡ cells_of_counts boundaries.now }
    ensures small { result < 2 ^ 40 }
{
    let mut cells = 1;
    for a in 0..boundaries.len() {
        cells *= boundaries[a] as u64 + 1;
    }
    cells
}

fn has_numbers(fields: &RootHeader, header: u8) -> bool
    ensures { IsTrue result ↔ HasNumbers header (model_fields fields.now) }
{
    fields.number % 2 == header as u64
        && fields.number <= LAST
        && fields.session <= LAST
        && fields.front < LAST
}

fn has_counts(fields: &RootHeader, shape: &Shape) -> bool
    requires { AreAtMost MOST_BOUNDARIES fields.now.boundaries.items }
    ensures { IsTrue result ↔ HasCounts shape.now (model_fields fields.now) }
{
    let cells = cells_of(fields.boundaries.as_slice());
    cells <= shape.cells as u64
        && fields.parts as u64 == (cells + 999) / 1000
        && 1 <= fields.buckets
        && fields.buckets < shape.pages
        && fields.records <= fields.buckets as u64 * shape.capacity as u64
}

/// Whether these are the fields of a root on this header page of a file of this shape.
#[tactic(auto, using(crate::proofs::Roots::at_most_thousand))]
pub fn is_lawful(fields: &RootHeader, geometry: &Geometry, header: u8) -> bool
    ensures { IsTrue result ↔ IsRootOn geometry.now.shape header (model_fields fields.now) }
{
    if !has_numbers(fields, header) {
        return false;
    }
    if fields.boundaries.len() != geometry.shape.k as usize {
        return false;
    }
    if !are_at_most(fields.boundaries.as_slice(), geometry.shape.boundaries) {
        return false;
    }
    has_counts(fields, &geometry.shape)
}
