//! Keys, each marked where a table has it.
ghost use Rattle.std.specs.Prelude.{◌≡◌, ◌≤◌};
ghost use Rattle.grid_types.specs.declared.sizes.TheConstants.{MOST_ATTRIBUTES, MOST_RECORDS};
ghost use Rattle.bucket_page.specs.OnPage.{OfBucket};
ghost use Rattle.grid_check.specs.Marks.{mark_of, keys_in, TurnsMark, MarksKeys};

use bucket_page::record_on;
use grid_types::{Key, PAGE_BYTES};
use std::collections::BTreeMap;
use std::mem;

/// Sets the mark of a key, if it has one, and gives the one before.
pub fn turn_mark<const K: usize>(
    marks: &mut BTreeMap<[u64; K], bool>,
    key: &Key<K>,
    there: bool,
) -> Option<bool>
    ensures before { result ≡ mark_of marks.old key.now.numbers }
    ensures after { TurnsMark key.now.numbers there marks.old marks.new }
{
    match marks.get_mut(&key.numbers) {
        Some(mark) => Some(mem::replace(mark, there)),
        None => None,
    }
}

/// Marks the keys of a page's records, those that have a mark.
pub fn mark_page<const K: usize>(
    page: &[u8; PAGE_BYTES],
    count: usize,
    marks: &mut BTreeMap<[u64; K], bool>,
)
    requires many { count ≤ MOST_RECORDS }
    requires few { K ≤ MOST_ATTRIBUTES }
    ensures { OfBucket K page.now count (λ b. MarksKeys (keys_in b.rows) marks.old marks.new) }
{
    for i in 0..count {
        turn_mark(marks, &record_on::<K>(page, i).key, true);
    }
}
