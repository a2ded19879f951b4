//! A key among records that ascend.
ghost use Rattle.std.specs.Prelude.{MatchResult};
ghost use Rattle.grid_types.specs.Keys.{IsKey};
ghost use Rattle.bucket_page.specs.Search.{AreBelow, IsFoundAt, FitsBefore};

use grid_types::{Key, Record};
use std::cmp::Ordering;

/// The index of the record that has the key, or else the index at which it would stand, as std's `binary_search` tells it.
pub fn search<const K: usize>(rows: &[Record<K>], key: &Key<K>) -> Result<usize, usize>
    ensures found { MatchResult result (IsFoundAt key.now.numbers rows.now)
        (FitsBefore key.now.numbers rows.now) }
    ensures key { IsKey K key.now.numbers }
{
    let numbers = key.numbers();
    for i in 0..rows.len() {
        match numbers.cmp(rows[i].key.numbers()) {
            Ordering::Less => return Err(i),
            Ordering::Equal => return Ok(i),
            Ordering::Greater => {}
        }
    }
    Err(rows.len())
}
