//! A bucket from the bytes of a page.
ghost use Rattle.std.specs.Prelude.{◌≡◌, ◌≤◌, IfSome, IfNone};
ghost use Rattle.grid_types.specs.declared.sizes.TheConstants.{MOST_ATTRIBUTES, MOST_RECORDS};
ghost use Rattle.grid_model.specs.Buckets.{SpellsBucket};
ghost use Rattle.bucket_page.specs.Buckets.{bucket_of};

use crate::Bucket;
use crate::judging::judge;
use crate::searching::record_on;
use arrayvec::ArrayVec;
use grid_types::PAGE_BYTES;

/// The bucket whose page this is. There is one at most.
pub fn decode<const K: usize>(page: &[u8; PAGE_BYTES], capacity: u16) -> Option<Bucket<K>>
    requires few { K ≤ MOST_ATTRIBUTES }
    requires lawful { capacity ≤ MOST_RECORDS }
    ensures found { IfSome result (λ b. SpellsBucket capacity page.now (bucket_of b)) }
    ensures only { IfSome result
        (λ b. (c : Bucket K) → SpellsBucket capacity page.now (bucket_of c) → b ≡ c) }
    ensures none { IfNone result
        ((b : Bucket K) → SpellsBucket capacity page.now (bucket_of b) → ⊥) }
{
    let Some(head) = judge(page, capacity) else {
        return None;
    };
    let mut bucket = Bucket {
        number: head.number,
        turn: head.turn,
        region: head.region,
        rows: ArrayVec::new(),
    };
    for i in 0..head.count as usize {
        bucket.rows.push(record_on(page, i));
    }
    Some(bucket)
}
