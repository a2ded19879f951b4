//! The directions in which a region has neighbours.
ghost use Rattle.std.specs.Prelude.{◌≡◌, ◌<◌, ◌≤◌, IfSome, slice_get, slice_set};
ghost use Rattle.std.specs.Option.{option_map};
ghost use Rattle.grid_types.specs.declared.sizes.TheConstants.{MOST_ATTRIBUTES};
ghost use Rattle.grid_model.specs.Neighbours.{directions, probe};
ghost use Rattle.merge_policy.specs.Sides.{attribute_of, direction_of};

use grid_types::{Key, MOST_ATTRIBUTES, Region};

/// A side of a region: below or above it in an attribute.
#[derive(Clone, Copy, Debug, PartialEq, Eq)]
pub enum Direction {
    Below(u8),
    Above(u8),
}

impl Direction {
    /// The direction of that index among those of K attributes: attributes ascending, below before above.
    pub fn at<const K: usize>(i: usize) -> Option<Direction>
        requires few { K ≤ MOST_ATTRIBUTES }
        ensures value { option_map direction_of result ≡ slice_get (directions K) i }
        ensures attribute { IfSome result (λ d. attribute_of d < K) }
    {
        if 2 * K <= i {
            return None;
        }
        let attribute = (i / 2) as u8;
        if i % 2 == 0 {
            Some(Direction::Below(attribute))
        } else {
            Some(Direction::Above(attribute))
        }
    }
}

/// The region's lowest corner, with that number in an attribute.
fn moved<const K: usize>(region: &Region<K>, a: usize, number: u64) -> Key<K>
    requires { a < K }
    ensures { result.numbers ≡ slice_set region.now.lo a number }
{
    let mut numbers = region.lo;
    numbers[a] = number;
    Key { numbers }
}

/// A key of the neighbour on a side, if there is one: the region's lowest corner, moved to one below its low bound or one
/// above its high bound.
pub fn probe<const K: usize>(region: &Region<K>, direction: Direction) -> Option<Key<K>>
    requires attribute { attribute_of direction < K }
    ensures { option_map (λ k. k.numbers) result ≡ probe region.now (direction_of direction) }
{
    match direction {
        Direction::Below(attribute) => {
            let a = attribute as usize;
            let low = region.lo[a];
            if low == 0 {
                return None;
            }
            Some(moved(region, a, low - 1))
        }
        Direction::Above(attribute) => {
            let a = attribute as usize;
            let high = region.hi[a];
            if high == u64::MAX {
                return None;
            }
            Some(moved(region, a, high + 1))
        }
    }
}
