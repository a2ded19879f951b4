//! The rule of the median.
ghost use Rattle.std.specs.Prelude.{◌≡◌, ◌≤◌, length};
ghost use Rattle.grid_types.specs.declared.sizes.TheConstants.{MOST_ATTRIBUTES};
ghost use Rattle.grid_model.specs.Cuts.{cut};
ghost use Rattle.linear_scales.specs.Limited.{scales_of};
ghost use Rattle.split_policy.specs.declared.rule.TheConstants.{MOST_ROWS};
ghost use Rattle.split_policy.specs.Rows.{keys_of};

use crate::existing::best_existing;
use crate::refinement::first_refinement;
use crate::{CutRule, MOST_ROWS};
use grid_types::{Cut, MOST_ATTRIBUTES, Record, Region, Shape};
use linear_scales::Scales;

/// Cuts where the parts differ least: at the best existing boundary, else at the best new one.
#[derive(Clone, Copy, Debug, PartialEq, Eq)]
pub struct Median;

/// The cut of the rule.
fn median_cut<const K: usize>(
    rows: &[Record<K>],
    scales: &Scales<K>,
    region: &Region<K>,
    turn: u8,
    shape: &Shape,
) -> Option<Cut>
    requires attributes { K ≤ MOST_ATTRIBUTES }
    requires few { length rows.now ≤ MOST_ROWS }
    ensures value { result ≡ cut shape.now (scales_of scales.now)
        (record { region = region.now; turn = turn }) (keys_of rows.now) }
    ensures count { length (scales_of scales.now) ≡ K }
{
    let intervals = scales.dims();
    match best_existing(rows, scales, region) {
        Some(best) => Some(Cut {
            attribute: best.attribute,
            value: best.value,
            fresh: false,
        }),
        None => first_refinement(shape, scales, &intervals, turn, rows),
    }
}

impl<const K: usize> CutRule<K> for Median {
    ghost chosen = { λ rule. cut };

    fn cut(
        &self,
        rows: &[Record<K>],
        scales: &Scales<K>,
        region: &Region<K>,
        turn: u8,
        shape: &Shape,
    ) -> Option<Cut> {
        median_cut(rows, scales, region, turn, shape)
    }
}
