//! A bucket without one of its records: from one page to another, and in memory.
ghost use Rattle.std.specs.Prelude.{◌≡◌, ◌<◌, ◌≤◌, List, ℕ, length};
ghost use Rattle.std.specs.List.{remove};
ghost use Rattle.grid_types.specs.declared.sizes.TheConstants.{MOST_ATTRIBUTES, MOST_RECORDS};
ghost use Rattle.grid_model.specs.Spellings.{BucketOf, bucket_spelling};
ghost use Rattle.grid_model.specs.Buckets.{SpellsBucket};
ghost use Rattle.bucket_page.specs.OnPage.{OfBucket};
ghost use Rattle.bucket_page.specs.Putting.{with_rows};
ghost use Rattle.bucket_page.specs.Changing.{without_key};
ghost use Rattle.bucket_page.specs.Search.{HasRecordAt};

use grid_types::{HEAD_BYTES, PAGE_BYTES, RECORD_BYTES};
use page_fields::{put_bytes, put_zeros, set_u16};

/// Makes `to` the page of the bucket of `from` without the record at that index. What `to` was before does not matter.
pub fn remove_into<const K: usize>(
    from: &[u8; PAGE_BYTES],
    count: usize,
    at: usize,
    to: &mut [u8; PAGE_BYTES],
)
    requires place { at < count }
    requires many { count ≤ MOST_RECORDS }
    requires few { K ≤ MOST_ATTRIBUTES }
    ensures written { OfBucket K from.now count
        (λ b. to.new ≡ bucket_spelling (with_rows b (remove b.rows at))) }
    ensures spelled { (capacity : ℕ) (key : List ℕ) (b : BucketOf K)
        → SpellsBucket capacity from.now b
        → length b.rows ≡ count
        → HasRecordAt b.rows key at
        → SpellsBucket capacity to.new (without_key b key) }
{
    let start = HEAD_BYTES + RECORD_BYTES * at;
    put_bytes(to, 0, &from[..8]);
    set_u16(to, 8, count as u16 - 1);
    put_bytes(to, 10, &from[10..start]);
    put_bytes(to, start, &from[start + RECORD_BYTES..]);
    put_zeros(to, PAGE_BYTES - RECORD_BYTES, PAGE_BYTES);
}
