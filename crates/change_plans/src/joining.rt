//! Two buckets that are joined.
ghost use Rattle.std.specs.Prelude.{◌≡◌, ◌≤◌, ◌&&◌, ◌+◌, ◌*◌, ◌/◌, ℕ, length, min, nat_le, is_some, IfSome, IfNone};
ghost use Rattle.grid_types.specs.declared.shape.Shape.{Shape};
ghost use Rattle.grid_types.specs.declared.sizes.TheConstants.{MOST_ATTRIBUTES, MOST_RECORDS};
ghost use Rattle.grid_types.specs.Regions.{make_a_box};
ghost use Rattle.grid_model.specs.Buckets.{SpellsBucket};
ghost use Rattle.grid_model.specs.Layouts.{BucketBox, Layout};
ghost use Rattle.grid_model.specs.Neighbours.{can_join};
ghost use Rattle.grid_model.specs.Spellings.{BucketOf};
ghost use Rattle.grid_model.specs.Tables.{Table, without};
ghost use Rattle.bucket_page.specs.Changing.{without_key, joined_buckets};
ghost use Rattle.change_plans.specs.Plans.{OfTwo, may_join, IsPageOf, IsPageBeside, IsMergeRemove};

use bucket_page::{decode, encode};
use grid_types::{Key, MOST_ATTRIBUTES, MOST_RECORDS, PAGE_BYTES};
use merge_policy::joinable;

/// Joins the bucket of `from`, without that key, with the bucket of `other`, where their regions are a box and both hold few
/// enough records: makes `to` the page of the two under the lower number, which is the answer.
pub fn join_of<const K: usize>(
    from: &[u8; PAGE_BYTES],
    key: &Key<K>,
    other: &[u8; PAGE_BYTES],
    capacity: u16,
    to: &mut [u8; PAGE_BYTES],
) -> Option<u32>
    requires few { K ≤ MOST_ATTRIBUTES }
    requires lawful { capacity ≤ MOST_RECORDS }
    ensures exactly { OfTwo K capacity from.now key.now.numbers other.now
        (λ b c. is_some result ≡ may_join capacity b c) }
    ensures spelled { OfTwo K capacity from.now key.now.numbers other.now
        (λ b c. IfSome result (λ _. SpellsBucket capacity to.new (joined_buckets b c))) }
    ensures number { OfTwo K capacity from.now key.now.numbers other.now
        (λ b c. IfSome result (λ n. n ≡ min b.number c.number)) }
    ensures kept { IfNone result (to.new ≡ to.old) }
    ensures joins { (shape : Shape) (L : Layout K) (t : Table) (e f : ℕ × BucketBox K) (n : ℕ)
        → IsPageOf shape L t key.now.numbers e from.now n
        → IsPageBeside shape L t e f other.now
        → shape.capacity ≡ capacity
        → is_some result
        ≡ can_join shape (without t key.now.numbers) e.1.region f.1.region }
    ensures page { (shape : Shape) (L : Layout K) (t : Table) (e f : ℕ × BucketBox K) (n : ℕ)
        → IsPageOf shape L t key.now.numbers e from.now n
        → IsPageBeside shape L t e f other.now
        → shape.capacity ≡ capacity
        → IfSome result (λ low. IsMergeRemove L t key.now e f.0 low to.new) }
{
    let Some(mut bucket) = decode::<K>(from, capacity) else {
        return None;
    };
    let Some(beside) = decode::<K>(other, capacity) else {
        return None;
    };
    bucket.remove(key);
    let rows = (bucket.rows.len() + beside.rows.len()) as u32;
    if !joinable(&bucket.region, &beside.region, rows, capacity) {
        return None;
    }
    let Some(region) = bucket.region.joins(&beside.region) else {
        unreachable!();
    };
    bucket.join(&beside, &region);
    encode(&bucket, capacity, to);
    Some(bucket.number)
}
