//! Rules by which a bucket is cut.
ghost use Rattle.std.specs.Prelude.{◌≡◌, ◌<◌, ◌≤◌, ℕ, List, Option, length, not, IsTrue, IfSome};
ghost use Rattle.grid_types.specs.declared.layout_change.Cut.{Cut};
ghost use Rattle.grid_types.specs.declared.shape.Shape.{Shape};
ghost use Rattle.grid_types.specs.declared.sizes.TheConstants.{MOST_ATTRIBUTES};
ghost use Rattle.grid_types.specs.Regions.{is_within};
ghost use Rattle.grid_model.specs.Lists.{is_among};
ghost use Rattle.grid_model.specs.Scales.{scale_of};
ghost use Rattle.grid_model.specs.Layouts.{BucketBox};
ghost use Rattle.grid_model.specs.Cuts.{divides, may_grow};
ghost use Rattle.linear_scales.specs.Limited.{scales_of};
ghost use Rattle.split_policy.specs.Rows.{keys_of, LieIn};

use grid_types::{Cut, MOST_ATTRIBUTES, MOST_RECORDS, Record, Region, Shape};
use linear_scales::Scales;

/// The most records that are cut: those of a full bucket, and one more.
pub const MOST_ROWS: usize = MOST_RECORDS + 1;

/// A rule by which a bucket with too many records is cut in two.
pub trait CutRule<const K: usize> {
    /// The rule as a function of the shape, the boundaries, the bucket's box and the keys, as `cut` is in the model.
    ghost chosen: { Self → Shape → List (List ℕ) → BucketBox K → List (List ℕ) → Option Cut };

    /// Where to cut the bucket of a region whose records, with the one that has no room, are these. `turn` is the attribute
    /// that the rule may prefer. Without a cut the record is not to be taken. It takes no memory.
    fn cut(
        &self,
        rows: &[Record<K>],
        scales: &Scales<K>,
        region: &Region<K>,
        turn: u8,
        shape: &Shape,
    ) -> Option<Cut>
        requires attributes { K ≤ MOST_ATTRIBUTES }
        requires few { length rows.now ≤ MOST_ROWS }
        ensures value { result ≡ chosen self.now shape.now (scales_of scales.now)
            (record { region = region.now; turn = turn }) (keys_of rows.now) }
        ensures attribute { IfSome result (λ c. c.attribute < K) }
        ensures divides { IfSome result
            (λ c. IsTrue (divides (keys_of rows.now) c.attribute c.value)) }
        ensures within { LieIn region.now rows.now
            → IfSome result (λ c. IsTrue (is_within region.now c.attribute c.value)) }
        ensures fresh { LieIn region.now rows.now
            → IfSome result (λ c.
            c.fresh ≡ not (is_among (scale_of (scales_of scales.now) c.attribute) c.value)) }
        ensures limits { IfSome result (λ c. IsTrue c.fresh
            → IsTrue (may_grow shape.now (scales_of scales.now) c.attribute)) };
}
