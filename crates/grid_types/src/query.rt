//! What a query asks of a key.
ghost use Rattle.std.specs.Prelude.{◌≡◌, ◌↔◌, IsTrue};
ghost use Rattle.grid_types.specs.Queries.{admits, begin_of, end_of, matches, is_straight, is_lawful};

use crate::Key;

/// What is asked of the number of one attribute.
#[derive(Clone, Copy, Debug, PartialEq, Eq)]
pub enum Side {
    /// Any number.
    Any,
    /// This number.
    Exactly(u64),
    /// The numbers from the first to the second, both included.
    Between(u64, u64),
}

/// What is asked of a key: a side for each attribute. A query with `Any` in some attributes is a partial match.
#[derive(Clone, Copy, Debug, PartialEq, Eq)]
pub struct Query<const K: usize> {
    pub sides: [Side; K],
}

impl Side {
    /// Whether the side asks for that number.
    pub fn admits(&self, number: u64) -> bool
        ensures { result ≡ admits self.now number }
    {
        match *self {
            Side::Any => true,
            Side::Exactly(wanted) => number == wanted,
            Side::Between(lo, hi) => lo <= number && number <= hi,
        }
    }

    /// The least number that the side asks for.
    pub fn begin(&self) -> u64
        ensures { result ≡ begin_of self.now }
    {
        match *self {
            Side::Any => 0,
            Side::Exactly(n) => n,
            Side::Between(lo, _) => lo,
        }
    }

    /// The greatest number that the side asks for.
    pub fn end(&self) -> u64
        ensures { result ≡ end_of self.now }
    {
        match *self {
            Side::Any => u64::MAX,
            Side::Exactly(n) => n,
            Side::Between(_, hi) => hi,
        }
    }

    /// Whether the side is the right way round: it does not end below its begin.
    pub fn is_straight(&self) -> bool
        ensures { result ≡ is_straight self.now }
    {
        match *self {
            Side::Any | Side::Exactly(_) => true,
            Side::Between(lo, hi) => lo <= hi,
        }
    }
}

/// Whether each side admits the number at its place.
fn all_admit<const K: usize>(sides: &[Side; K], numbers: &[u64; K]) -> bool
    ensures { result ≡ matches sides.now numbers.now }
{
    for a in 0..K {
        if !sides[a].admits(numbers[a]) {
            return false;
        }
    }
    true
}

/// Whether each side is the right way round.
fn all_straight<const K: usize>(sides: &[Side; K]) -> bool
    ensures { result ≡ is_lawful sides.now }
{
    for side in sides {
        if !side.is_straight() {
            return false;
        }
    }
    true
}

impl<const K: usize> Query<K> {
    /// Whether no side ends below its begin.
    pub fn lawful(&self) -> bool
        ensures { result ≡ is_lawful self.now.sides }
    {
        all_straight(&self.sides)
    }

    /// Whether the query asks for that key.
    pub fn admits(&self, key: &Key<K>) -> bool
        ensures { result ≡ matches self.now.sides key.now.numbers }
    {
        all_admit(&self.sides, &key.numbers)
    }
}
