//! A record that is put from one page into another: nothing is decoded, cleared or spelled again.
ghost use Rattle.std.specs.Prelude.{◌≡◌, ◌<◌, ◌≤◌, ℕ, IsTrue, length, set};
ghost use Rattle.std.specs.List.{insert};
ghost use Rattle.grid_types.specs.declared.sizes.TheConstants.{MOST_ATTRIBUTES, MOST_RECORDS};
ghost use Rattle.grid_types.specs.Regions.{contains};
ghost use Rattle.grid_model.specs.Spellings.{bucket_spelling};
ghost use Rattle.grid_model.specs.Buckets.{SpellsBucket};
ghost use Rattle.bucket_page.specs.OnPage.{OfBucket, OfBucketAt};
ghost use Rattle.bucket_page.specs.Putting.{with_rows, with_record};
ghost use Rattle.bucket_page.specs.Search.{HasRecordAt, FitsBefore};

use crate::writing::put_row;
use grid_types::{HEAD_BYTES, PAGE_BYTES, RECORD_BYTES, Record};
use page_fields::{put_bytes, set_u16};

/// Makes `to` the page of the bucket of `from` with one record more, at that index. What `to` was before does not matter.
pub fn insert_into<const K: usize>(
    from: &[u8; PAGE_BYTES],
    count: usize,
    at: usize,
    row: &Record<K>,
    to: &mut [u8; PAGE_BYTES],
)
    requires room { count < MOST_RECORDS }
    requires place { at ≤ count }
    requires few { K ≤ MOST_ATTRIBUTES }
    ensures written { OfBucket K from.now count
        (λ b. to.new ≡ bucket_spelling (with_rows b (insert b.rows at row.now))) }
    ensures spelled { (capacity : ℕ) → count < capacity → OfBucket K from.now count
        (λ b. FitsBefore row.now.key.numbers b.rows at
        → IsTrue (contains b.box.region row.now.key.numbers)
        → SpellsBucket capacity to.new (with_record b row.now)) }
{
    let start = HEAD_BYTES + RECORD_BYTES * at;
    put_bytes(to, 0, &from[..8]);
    set_u16(to, 8, count as u16 + 1);
    put_bytes(to, 10, &from[10..start]);
    put_row(to, start, row);
    put_bytes(
        to,
        start + RECORD_BYTES,
        &from[start..PAGE_BYTES - RECORD_BYTES],
    );
}

/// Makes `to` the page of the bucket of `from` with this record in place of the one at that index. What `to` was before
/// does not matter.
pub fn replace_into<const K: usize>(
    from: &[u8; PAGE_BYTES],
    at: usize,
    row: &Record<K>,
    to: &mut [u8; PAGE_BYTES],
)
    requires place { at < MOST_RECORDS }
    requires few { K ≤ MOST_ATTRIBUTES }
    ensures written { OfBucketAt K from.now at
        (λ b. to.new ≡ bucket_spelling (with_rows b (set b.rows at row.now))) }
    ensures spelled { (capacity : ℕ) → OfBucketAt K from.now at
        (λ b. length b.rows ≤ capacity
        → HasRecordAt b.rows row.now.key.numbers at
        → SpellsBucket capacity to.new (with_record b row.now)) }
{
    let start = HEAD_BYTES + RECORD_BYTES * at;
    put_bytes(to, 0, &from[..start]);
    put_row(to, start, row);
    put_bytes(to, start + RECORD_BYTES, &from[start + RECORD_BYTES..]);
}
