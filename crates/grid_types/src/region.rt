//! Regions of keys.
ghost use Rattle.std.specs.Prelude.{◌≡◌, ◌<◌, ◌≤◌, ◌^◌, ◌↔◌, IsTrue, List, ℕ, length, map, slice_index, replicate, nat_le, ◌&&◌};
ghost use Rattle.grid_types.specs.Keys.{IsKey, top};
ghost use Rattle.grid_types.specs.Queries.{begin_of, end_of, is_lawful};
ghost use Rattle.grid_types.specs.Regions.{Within, contains, IsRegion, is_within, part_below, part_from, meets, HaveKeyInCommon};
ghost use lib.Pointwise.{pointwise};

use crate::{Key, Query, Side};

/// The keys between two corners, both included in each attribute.
#[derive(Clone, Copy, Debug, PartialEq, Eq)]
pub struct Region<const K: usize> {
    pub lo: [u64; K],
    pub hi: [u64; K],
}

/// Whether each number is at most the other at its place.
fn at_most<const K: usize>(these: &[u64; K], those: &[u64; K]) -> bool
    ensures { result ≡ pointwise nat_le these.now those.now }
{
    for a in 0..K {
        if those[a] < these[a] {
            return false;
        }
    }
    true
}

/// Whether each number lies between the bounds at its place.
fn all_between<const K: usize>(lo: &[u64; K], at: &[u64; K], hi: &[u64; K]) -> bool
    ensures value { result ≡ (pointwise nat_le lo.now at.now && pointwise nat_le at.now hi.now) }
    ensures within { IsTrue result ↔ Within lo.now hi.now at.now }
{
    at_most(lo, at) && at_most(at, hi)
}

/// Whether each number is at most the greatest that the side at its place asks for.
fn all_before_ends<const K: usize>(numbers: &[u64; K], sides: &[Side; K]) -> bool
    ensures { result ≡ pointwise nat_le numbers.now (map end_of sides.now) }
{
    for a in 0..K {
        if sides[a].end() < numbers[a] {
            return false;
        }
    }
    true
}

/// Whether each number is at least the least that the side at its place asks for.
fn all_behind_begins<const K: usize>(sides: &[Side; K], numbers: &[u64; K]) -> bool
    ensures { result ≡ pointwise nat_le (map begin_of sides.now) numbers.now }
{
    for a in 0..K {
        if numbers[a] < sides[a].begin() {
            return false;
        }
    }
    true
}

impl<const K: usize> Region<K> {
    /// The region of every key.
    pub fn whole() -> Region<K>
        ensures low { result.lo ≡ replicate K 0 }
        ensures high { result.hi ≡ replicate K top }
        ensures every { (at : List ℕ) → IsKey K at → Within result.lo result.hi at }
    {
        Region {
            lo: [0; K],
            hi: [u64::MAX; K],
        }
    }

    /// Whether the region has the key.
    pub fn contains(&self, key: &Key<K>) -> bool
        ensures value { result ≡ contains self.now key.now.numbers }
        ensures within { IsTrue result ↔ Within self.now.lo self.now.hi key.now.numbers }
        ensures key { IsKey K key.now.numbers }
    {
        let _numbers = key.numbers();
        all_between(&self.lo, &key.numbers, &self.hi)
    }
    /// Whether the region has a key that the query asks for.
    pub fn meets(&self, query: &Query<K>) -> bool
        ensures value { result ≡ meets self.now query.now.sides }
        ensures common { IsRegion K self.now
            → IsTrue (is_lawful query.now.sides)
            → IsTrue result ↔ HaveKeyInCommon self.now query.now.sides }
    {
        all_before_ends(&self.lo, &query.sides) && all_behind_begins(&query.sides, &self.hi)
    }

    /// The parts of the region on both sides of a boundary that lies within it: the keys below it, and the others.
    pub fn cut(&self, attribute: u8, value: u64) -> (Region<K>, Region<K>)
        requires attribute { attribute < K }
        requires within { IsTrue (is_within self.now attribute value) }
        ensures below { result.0 ≡ part_below self.now attribute value }
        ensures from { result.1 ≡ part_from self.now attribute value }
        ensures regions { IsRegion K self.now → IsRegion K result.0 × IsRegion K result.1 }
    {
        let mut below = *self;
        let mut from = *self;
        below.hi[attribute as usize] = value - 1;
        from.lo[attribute as usize] = value;
        (below, from)
    }
}
