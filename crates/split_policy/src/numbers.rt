//! The numbers that rows have in an attribute.
ghost use Rattle.std.specs.Prelude.{◌≡◌, ◌<◌, ◌≤◌, ℕ, length, slice_index};
ghost use Rattle.std.specs.List.Sorted.{IsNonDecreasing};
ghost use Rattle.split_policy.specs.declared.rule.TheConstants.{MOST_ROWS};
ghost use Rattle.split_policy.specs.Rows.{keys_of, count_below, AreAscending};

use crate::MOST_ROWS;
use arrayvec::ArrayVec;
use grid_types::Record;

/// The numbers of the rows in an attribute, ascending.
pub fn ascending<const K: usize>(rows: &[Record<K>], a: usize) -> ArrayVec<u64, MOST_ROWS>
    requires attribute { a < K }
    requires few { length rows.now ≤ MOST_ROWS }
    ensures { AreAscending (keys_of rows.now) a result.items }
{
    let mut numbers = ArrayVec::new();
    for row in rows {
        numbers.push(row.key.numbers[a]);
    }
    numbers.sort_unstable();
    numbers
}

/// How many of the numbers lie below this one, as the first `from` do.
pub fn below(numbers: &[u64], from: usize, v: u64) -> usize
    requires ascend { IsNonDecreasing numbers.now }
    requires known { (k : ℕ) → k < from → slice_index numbers.now k < v }
    ensures count { result ≡ count_below numbers.now v }
    ensures within { result ≤ length numbers.now }
    ensures each { (k : ℕ) → k < result → slice_index numbers.now k < v }
{
    for i in from..numbers.len() {
        if v <= numbers[i] {
            return i;
        }
    }
    numbers.len()
}
