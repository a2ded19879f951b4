//! The cells of a box, by their indices. No cell is looked at: the attributes tell.
ghost use Rattle.std.specs.Prelude.{◌≡◌, ◌<◌, ◌≤◌, ◌+◌, ◌*◌, ◌↔◌, ℕ, List, length, slice_index, IsTrue, MatchOption, ⊤};
ghost use Rattle.grid_model.specs.Lists.{product};
ghost use Rattle.grid_model.specs.Cells.{cell_index};
ghost use Rattle.grid_cells.specs.Dims.{IsDims};
ghost use Rattle.directory_pages.specs.CellBoxes.{HoldsCell};
ghost use Rattle.directory_changes.specs.Changes.{HasCorners};
ghost use Rattle.directory_changes.specs.Indices.{IsUpright, IsLeastFrom, IsNoneOnward, least_with};

use grid_cells::Dims;
use grid_types::CellBox;

/// Whether no interval is above the other one of its attribute.
fn at_most<const K: usize>(lo: &[u32; K], hi: &[u32; K]) -> bool
    ensures { IsTrue result
        ↔ ((a : ℕ) → a < length lo.now → slice_index lo.now a ≤ slice_index hi.now a) }
{
    for a in 0..K {
        if hi[a] < lo[a] {
            return false;
        }
    }
    true
}

/// Whether no low interval is above the high one.
fn is_upright<const K: usize>(cells: &CellBox<K>) -> bool
    ensures { IsTrue result ↔ IsUpright cells.now }
{
    at_most(&cells.lo, &cells.hi)
}

/// The least index for one attribute more: with the interval that the start has there, the attribute's lowest and highest
/// intervals, how many cells those behind have, their lowest index and their least one from the start on.
fn least_with(
    interval: u32,
    range: (u32, u32),
    size: u32,
    lowest: u32,
    least: Option<u32>,
) -> Option<u32>
    requires few { interval * size + size ≤ 1000000 }
    requires high { range.1 * size + size ≤ 1000000 }
    requires upright { range.0 ≤ range.1 }
    requires low { lowest < size }
    requires inside { MatchOption least ⊤ (λ x. x < size) }
    ensures { result ≡ least_with interval range.0 range.1 size lowest least }
{
    if interval < range.0 {
        return Some(range.0 * size + lowest);
    }
    if range.1 < interval {
        return None;
    }
    match least {
        Some(rest) => Some(interval * size + rest),
        None if interval < range.1 => Some((interval + 1) * size + lowest),
        None => None,
    }
}

/// The least index from this one on that has a cell of the box.
fn least_from<const K: usize>(intervals: &[u32; K], cells: &CellBox<K>, from: u32) -> Option<u32>
    requires lawful { IsDims intervals.now }
    requires corners { HasCorners intervals.now cells.now }
    requires upright { IsUpright cells.now }
    requires inside { from < product intervals.now }
    ensures { MatchOption result
        (IsNoneOnward intervals.now cells.now from)
        (IsLeastFrom intervals.now cells.now from) }
{
    let mut rest = from;
    let mut size = 1;
    let mut lowest = 0;
    let mut least = Some(0);
    for a in (0..K).rev() {
        let range = (cells.lo[a], cells.hi[a]);
        least = least_with(rest % intervals[a], range, size, lowest, least);
        lowest += cells.lo[a] * size;
        size *= intervals[a];
        rest /= intervals[a];
    }
    least
}

/// Whether the part holds a cell of the box.
pub fn holds_cell<const K: usize>(dims: &Dims<K>, cells: &CellBox<K>, part: u32) -> bool
    requires corners { HasCorners dims.now.intervals cells.now }
    requires inside { 1000 * part < product dims.now.intervals }
    ensures { IsTrue result ↔ HoldsCell dims.now.intervals cells.now part }
{
    if !is_upright(cells) {
        return false;
    }
    match least_from(&dims.intervals, cells, 1000 * part) {
        Some(at) => at / 1000 == part,
        None => false,
    }
}
