//! Keys and their order.
ghost use Rattle.std.specs.Prelude.{◌≡◌, ◌<◌, ◌^◌, ◌↔◌, ℕ, List, IsTrue, length, slice_index};
ghost use Rattle.std.specs.declared.cmp.Ordering.TheVariants.{Less};
ghost use Rattle.grid_types.specs.Keys.{key_cmp, IsKey, OrdersKeys};

use std::cmp::Ordering;

/// A key: one number for each of the K attributes, which are of equal rank. Keys are ordered
/// lexicographically, the first attribute first.
#[derive(Clone, Copy, Debug, Default, PartialEq, Eq, PartialOrd, Ord)]
pub struct Key<const K: usize> {
    pub numbers: [u64; K],
}

/// The same numbers. Behind a slice each is known to be in its type's range.
fn in_range(numbers: &[u64]) -> &[u64]
    ensures value { result.now ≡ numbers.now }
    ensures in_range { (a : ℕ) → slice_index numbers.now a < 2 ^ 64 }
{
    numbers
}

impl<const K: usize> Key<K> {
    /// The key's numbers, by attribute.
    pub fn numbers(&self) -> &[u64]
        ensures value { result.now ≡ self.now.numbers }
        ensures key { IsKey K self.now.numbers }
    {
        in_range(&self.numbers)
    }

    /// Whether this key stands before the other one.
    pub fn is_below(&self, other: &Key<K>) -> bool
        ensures { IsTrue result ↔ (key_cmp self.now.numbers other.now.numbers ≡ Less) }
    {
        matches!(self.numbers.cmp(&other.numbers), Ordering::Less)
    }
}

/// The law of the order of keys: it is total, and two keys of equal rank are one.
pub fn key_order()
    ensures { OrdersKeys key_cmp }
{}
