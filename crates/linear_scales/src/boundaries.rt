//! Boundaries that ascend, as the list that they are.
ghost use Rattle.std.specs.Prelude.{◌≡◌, ◌≤◌, ◌+◌, ℕ, length, IsTrue, MatchResult, vec_capacity, vec_len};
ghost use Rattle.std.specs.List.{insert};
ghost use Rattle.grid_model.specs.Scales.{is_scale, interval, low, high};
ghost use Rattle.linear_scales.specs.Searches.{IsBoundaryAt, FitsAt};

/// The index of a boundary, or the index at which the number would stand.
pub fn search(boundaries: &[u64], v: u64) -> Result<usize, usize>
    requires { IsTrue (is_scale boundaries.now) }
    ensures { MatchResult result (IsBoundaryAt boundaries.now v) (FitsAt boundaries.now v) }
{
    boundaries.binary_search(&v)
}

/// How many boundaries are at most the number.
pub fn interval(boundaries: &[u64], v: u64) -> usize
    requires { IsTrue (is_scale boundaries.now) }
    ensures value { result ≡ interval boundaries.now v }
    ensures within { result ≤ length boundaries.now }
{
    match search(boundaries, v) {
        Ok(at) => at + 1,
        Err(at) => at,
    }
}

/// The lowest number of an interval.
pub fn low(boundaries: &[u64], i: usize) -> u64
    requires { i ≤ length boundaries.now }
    ensures { result ≡ low boundaries.now i }
{
    if i == 0 {
        return 0;
    }
    boundaries[i - 1]
}

/// The highest number of an interval.
pub fn high(boundaries: &[u64], i: usize) -> u64
    requires scale { IsTrue (is_scale boundaries.now) }
    requires inside { i ≤ length boundaries.now }
    ensures { result ≡ high boundaries.now i }
{
    if i == boundaries.len() {
        return u64::MAX;
    }
    boundaries[i] - 1
}

/// Puts a number among numbers that have room for it.
pub fn put(list: &mut Vec<u64>, at: usize, v: u64)
    requires inside { at ≤ length list.old.items }
    requires room { length list.old.items + 1 ≤ vec_capacity list.old }
    ensures items { list.new.items ≡ insert list.old.items at v }
    ensures capacity { vec_capacity list.old ≤ vec_capacity list.new }
{
    match list.insert(at, v) {
        Ok(()) => {}
        Err(_) => unreachable!(),
    }
}

/// Makes the list the other one, for which it has room.
pub fn replace(list: &mut Vec<u64>, other: &[u64])
    requires { length other.now ≤ vec_capacity list.old }
    ensures items { list.new.items ≡ other.now }
    ensures capacity { vec_capacity list.old ≤ vec_capacity list.new }
{
    list.clear();
    match list.extend_from_slice(other) {
        Ok(()) => {}
        Err(_) => unreachable!(),
    }
}
