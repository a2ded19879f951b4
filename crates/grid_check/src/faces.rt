//! The bounds of regions, judged by the scales.
ghost use Rattle.std.specs.Prelude.{◌≡◌, ◌≢◌, ◌<◌, ◌≤◌, ◌↔◌, ℕ, List, IsTrue, length, slice_index};
ghost use Rattle.grid_types.specs.declared.sizes.TheConstants.{MOST_ATTRIBUTES};
ghost use Rattle.grid_model.specs.Lawful.{nowhere};
ghost use Rattle.grid_model.specs.Layouts.{IsDrawn};
ghost use Rattle.grid_model.specs.Scales.{is_drawn};
ghost use Rattle.linear_scales.specs.Limited.{scales_of};
ghost use Rattle.grid_check.specs.Reads.{AreHeld};
ghost use Rattle.grid_check.specs.Rules.{JudgesFaces};

use crate::Holding;
use crate::numbers::is_numbered;
use grid_types::{Geometry, PageList, Region};
use linear_scales::{Scale, Scales};

/// Whether the first number begins an interval, and the second one ends one.
fn is_drawn(scale: &Scale, lo: u64, hi: u64) -> bool
    ensures { IsTrue result ↔ IsTrue (is_drawn scale.now.boundaries lo hi) }
{
    let (low, _) = scale.bounds(scale.interval(lo));
    let (_, high) = scale.bounds(scale.interval(hi));
    low == lo && high == hi
}

/// Whether each bound of a region is an end of an interval.
fn has_faces<const K: usize>(scales: &Scales<K>, region: &Region<K>) -> bool
    ensures { IsTrue result
        ↔ IsDrawn (scales_of scales.now) (record { region = region.now; turn = 0 }) }
{
    for a in 0..K {
        if !is_drawn(scales.scale(a), region.lo[a], region.hi[a]) {
            return false;
        }
    }
    true
}

/// The page of the first bucket number whose bucket has a bound that is no end of an interval, or none.
pub fn first_bad_face<const K: usize>(
    geometry: &Geometry,
    scales: &Scales<K>,
    table: &PageList,
    holdings: &[Holding<K>],
) -> Option<u32>
    requires count { length table.now.items ≡ geometry.now.shape.pages }
    requires pages { (n : ℕ) → n < length table.now.items
        → slice_index table.now.items n ≢ nowhere
        → slice_index table.now.items n < geometry.now.shape.pages }
    requires few { K ≤ MOST_ATTRIBUTES }
    requires room { length holdings.now ≡ length table.now.items }
    ensures judged { (image : List ℕ)
        → AreHeld geometry.now.shape image table.now.items holdings.now (length table.now.items)
        → JudgesFaces K geometry.now.shape image (scales_of scales.now) table.now.items result }
{
    for number in 0..geometry.shape.pages {
        if !is_numbered(table, number) {
            continue;
        }
        if !has_faces(scales, &holdings[number as usize].region) {
            return Some(geometry.data_page(table.list()[number as usize]));
        }
    }
    None
}
