//! The second choice: a new boundary, in the first attribute that may have one.
ghost use Rattle.std.specs.Prelude.{◌≡◌, ◌<◌, ◌≤◌, ℕ, length, nat_le, slice_index};
ghost use Rattle.std.specs.Option.{option_map};
ghost use Rattle.grid_types.specs.declared.sizes.TheConstants.{MOST_ATTRIBUTES};
ghost use Rattle.grid_model.specs.Lists.{product, first_some};
ghost use Rattle.grid_model.specs.Cells.{dims};
ghost use Rattle.grid_model.specs.Cuts.{best_value, may_grow, refinement, refinements};
ghost use Rattle.linear_scales.specs.Limited.{scales_of};
ghost use Rattle.split_policy.specs.declared.rule.TheConstants.{MOST_ROWS};
ghost use Rattle.split_policy.specs.Rows.{keys_of};
ghost use Rattle.split_policy.specs.Candidates.{measured};

use crate::MOST_ROWS;
use crate::candidate::{Candidate, consider};
use crate::numbers::{ascending, below};
use grid_types::{Cut, MOST_ATTRIBUTES, Record, Shape};
use linear_scales::Scales;

/// Whether the product of the numbers is at most the limit.
fn is_product_within<const K: usize>(numbers: &[u32; K], limit: u32) -> bool
    requires { (a : ℕ) → a < K → 1 ≤ slice_index numbers.now a }
    ensures { result ≡ nat_le (product numbers.now) limit }
{
    let limit = u64::from(limit);
    let mut cells: u64 = 1;
    for a in 0..K {
        if limit < cells {
            return false;
        }
        cells *= u64::from(numbers[a]);
    }
    cells <= limit
}

/// Whether the scale of an attribute, and the directory with it, may have one more boundary.
fn may_grow<const K: usize>(
    shape: &Shape,
    scales: &Scales<K>,
    intervals: &[u32; K],
    a: usize,
) -> bool
    requires attribute { a < K }
    requires intervals { intervals.now ≡ dims (scales_of scales.now) }
    ensures { result ≡ may_grow shape.now (scales_of scales.now) a }
{
    let count = scales.scale(a).boundaries().len();
    if shape.boundaries as usize <= count {
        return false;
    }
    let mut finer = *intervals;
    finer[a] = count as u32 + 2;
    is_product_within(&finer, shape.cells)
}

/// The best of the numbers of the rows in an attribute.
fn best_value<const K: usize>(rows: &[Record<K>], a: usize) -> Option<Candidate>
    requires attributes { K ≤ MOST_ATTRIBUTES }
    requires attribute { a < K }
    requires few { length rows.now ≤ MOST_ROWS }
    ensures { result ≡ option_map (λ v. measured (keys_of rows.now) (a, v))
        (best_value (keys_of rows.now) a) }
{
    let numbers = ascending(rows, a);
    let mut best = None;
    for row in rows {
        let value = row.key.numbers[a];
        let left = below(&numbers, 0, value);
        consider(&mut best, a as u8, value, left, numbers.len() - left);
    }
    best
}

/// The cut at a new boundary of an attribute, where it may have one.
fn refinement<const K: usize>(
    shape: &Shape,
    scales: &Scales<K>,
    intervals: &[u32; K],
    rows: &[Record<K>],
    a: usize,
) -> Option<Cut>
    requires attributes { K ≤ MOST_ATTRIBUTES }
    requires attribute { a < K }
    requires few { length rows.now ≤ MOST_ROWS }
    requires intervals { intervals.now ≡ dims (scales_of scales.now) }
    ensures { result ≡ refinement shape.now (scales_of scales.now) (keys_of rows.now) a }
{
    if !may_grow(shape, scales, intervals, a) {
        return None;
    }
    match best_value(rows, a) {
        Some(best) => Some(Cut {
            attribute: best.attribute,
            value: best.value,
            fresh: true,
        }),
        None => None,
    }
}

/// The cut at a new boundary of the first attribute from the turn on that may have one.
pub fn first_refinement<const K: usize>(
    shape: &Shape,
    scales: &Scales<K>,
    intervals: &[u32; K],
    turn: u8,
    rows: &[Record<K>],
) -> Option<Cut>
    requires attributes { K ≤ MOST_ATTRIBUTES }
    requires few { length rows.now ≤ MOST_ROWS }
    requires count { length scales.now ≡ K }
    requires intervals { intervals.now ≡ dims (scales_of scales.now) }
    ensures { result
        ≡ first_some (refinements shape.now (scales_of scales.now) turn (keys_of rows.now)) }
{
    for s in 0..K {
        let a = (turn as usize + s) % K;
        if let Some(cut) = refinement(shape, scales, intervals, rows, a) {
            return Some(cut);
        }
    }
    None
}
