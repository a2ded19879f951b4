//! Regions that make a box together.
ghost use Rattle.std.specs.Prelude.{◌≡◌, ◌<◌, ◌+◌, ◌==◌, ℕ, IfSome, is_some, length, min, max};
ghost use Rattle.grid_types.specs.Lists.{zip_with};
ghost use Rattle.grid_types.specs.Regions.{same_but, one_follows, touch_along, make_a_box, hull};

use crate::Region;

/// Whether the numbers are the same but at a place.
fn are_same_but<const K: usize>(a: usize, these: &[u64; K], those: &[u64; K]) -> bool
    requires { a < K }
    ensures { result ≡ same_but a these.now those.now }
{
    for b in 0..K {
        if b != a && these[b] != those[b] {
            return false;
        }
    }
    true
}

/// Whether a number is the next one behind the other.
fn is_next(number: u64, next: u64) -> bool
    ensures { result ≡ (number + 1 == next) }
{
    number < next && next - number == 1
}

/// The lower one of the numbers at each place.
fn lower_each<const K: usize>(these: &[u64; K], those: &[u64; K]) -> [u64; K]
    ensures { result ≡ zip_with min these.now those.now }
{
    let mut lower = *these;
    for a in 0..K {
        lower[a] = these[a].min(those[a]);
    }
    lower
}

/// The higher one of the numbers at each place.
fn higher_each<const K: usize>(these: &[u64; K], those: &[u64; K]) -> [u64; K]
    ensures { result ≡ zip_with max these.now those.now }
{
    let mut higher = *these;
    for a in 0..K {
        higher[a] = these[a].max(those[a]);
    }
    higher
}

/// How many numbers a corner has.
fn count<const K: usize>(_corner: &[u64; K]) -> usize
    ensures value { result ≡ K }
    ensures count { result ≡ length _corner.now }
{
    K
}

impl<const K: usize> Region<K> {
    /// Whether the regions are the same in all attributes but one, and in that one the one begins where the other ends.
    fn touches_along(&self, other: &Region<K>, a: usize) -> bool
        requires { a < K }
        ensures { result ≡ touch_along self.now other.now a }
    {
        are_same_but(a, &self.lo, &other.lo)
            && are_same_but(a, &self.hi, &other.hi)
            && (is_next(self.hi[a], other.lo[a]) || is_next(other.hi[a], self.lo[a]))
    }

    /// Whether the regions have no key in common and are a box together.
    fn makes_a_box(&self, other: &Region<K>) -> bool
        ensures { result ≡ make_a_box self.now other.now }
    {
        for a in 0..count(&self.lo) {
            if self.touches_along(other, a) {
                return true;
            }
        }
        false
    }

    /// The region of the keys of both, where they have none in common and are a box together.
    pub fn joins(&self, other: &Region<K>) -> Option<Region<K>>
        ensures exactly { is_some result ≡ make_a_box self.now other.now }
        ensures joined { IfSome result (λ r. r ≡ hull self.now other.now) }
    {
        if !self.makes_a_box(other) {
            return None;
        }
        Some(Region {
            lo: lower_each(&self.lo, &other.lo),
            hi: higher_each(&self.hi, &other.hi),
        })
    }
}
