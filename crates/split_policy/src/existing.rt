//! The first choice: the best boundary that exists.
ghost use Rattle.std.specs.Prelude.{◌≡◌, ◌<◌, ◌≤◌, ◌++◌, ◌&&◌, ℕ, List, length, filter, map, nat_lt, nat_le};
ghost use Rattle.std.specs.List.Sorted.{IsNonDecreasing};
ghost use Rattle.std.specs.Option.{option_map};
ghost use Rattle.grid_types.specs.declared.sizes.TheConstants.{MOST_ATTRIBUTES};
ghost use Rattle.grid_types.specs.Regions.{is_within};
ghost use Rattle.grid_model.specs.Cuts.{divides, best_existing};
ghost use Rattle.linear_scales.specs.Limited.{scales_of};
ghost use Rattle.split_policy.specs.declared.rule.TheConstants.{MOST_ROWS};
ghost use Rattle.split_policy.specs.Rows.{keys_of, AreAscending};
ghost use Rattle.split_policy.specs.Candidates.{measured, dividing, best_of};

use crate::MOST_ROWS;
use crate::candidate::{Candidate, consider};
use crate::numbers::{ascending, below};
use grid_types::{MOST_ATTRIBUTES, Record, Region};
use linear_scales::{Scale, Scales};

/// The boundaries of a scale that lie above `lo` and not above `hi`.
fn between(scale: &Scale, lo: u64, hi: u64) -> &[u64]
    ensures value { result.now ≡ filter (λ v. nat_lt lo v && nat_le v hi) scale.now.boundaries }
    ensures ascend { IsNonDecreasing result.now }
{
    let boundaries = scale.boundaries();
    let begin = scale.interval(lo) as usize;
    let end = scale.interval(hi) as usize;
    if end < begin {
        return &boundaries[..0];
    }
    &boundaries[begin..end]
}

/// The best of the candidates so far and of boundaries of an attribute.
fn best_among(
    best: Option<Candidate>,
    attribute: u8,
    boundaries: &[u64],
    numbers: &[u64],
) -> Option<Candidate>
    requires boundaries { IsNonDecreasing boundaries.now }
    requires numbers { IsNonDecreasing numbers.now }
    ensures { (keys : List (List ℕ)) (candidates : List (ℕ × ℕ))
        → AreAscending keys attribute numbers.now
        → best ≡ best_of keys candidates
        → result ≡ best_of keys (candidates ++ dividing keys attribute boundaries.now) }
{
    let mut best = best;
    let mut left = 0;
    for value in boundaries {
        left = below(numbers, left, *value);
        consider(&mut best, attribute, *value, left, numbers.len() - left);
    }
    best
}

/// The candidate of least rank among the boundaries that lie within the region.
pub fn best_existing<const K: usize>(
    rows: &[Record<K>],
    scales: &Scales<K>,
    region: &Region<K>,
) -> Option<Candidate>
    requires attributes { K ≤ MOST_ATTRIBUTES }
    requires few { length rows.now ≤ MOST_ROWS }
    requires count { length scales.now ≡ K }
    ensures { result ≡ option_map (measured (keys_of rows.now))
        (best_existing (scales_of scales.now) region.now (keys_of rows.now)) }
{
    let mut best = None;
    for a in 0..K {
        let boundaries = between(scales.scale(a), region.lo[a], region.hi[a]);
        let numbers = ascending(rows, a);
        best = best_among(best, a as u8, boundaries, &numbers);
    }
    best
}
