//! A record that is taken from a bucket.
ghost use Rattle.std.specs.Prelude.{◌≡◌, ◌≤◌, ℕ, length, OnSome, IfNone};
ghost use Rattle.grid_types.specs.declared.shape.Shape.{Shape};
ghost use Rattle.grid_types.specs.declared.sizes.TheConstants.{MOST_ATTRIBUTES, MOST_RECORDS};
ghost use Rattle.grid_model.specs.Buckets.{SpellsBucket};
ghost use Rattle.grid_model.specs.Layouts.{BucketBox, Layout};
ghost use Rattle.grid_model.specs.Spellings.{BucketOf};
ghost use Rattle.grid_model.specs.Tables.{Table, get, pairs_of};
ghost use Rattle.bucket_page.specs.OnPage.{OfBucket};
ghost use Rattle.bucket_page.specs.Changing.{without_key};
ghost use Rattle.change_plans.specs.Plans.{IsPageOf, IsPlainRemove};

use bucket_page::{data_on, find_on, remove_into};
use grid_types::{Data, Key, MOST_ATTRIBUTES, MOST_RECORDS, PAGE_BYTES};

/// Makes `to` the page of the bucket of `from` without that key, and answers the data that it had. None where the bucket
/// does not have the key.
pub fn take_from<const K: usize>(
    from: &[u8; PAGE_BYTES],
    count: usize,
    key: &Key<K>,
    to: &mut [u8; PAGE_BYTES],
) -> Option<Data>
    requires few { K ≤ MOST_ATTRIBUTES }
    requires many { count ≤ MOST_RECORDS }
    ensures old { OfBucket K from.now count
        (λ b. result ≡ get (pairs_of b.rows) key.now.numbers) }
    ensures spelled { (capacity : ℕ) (b : BucketOf K)
        → SpellsBucket capacity from.now b
        → length b.rows ≡ count
        → OnSome result (SpellsBucket capacity to.new (without_key b key.now.numbers)) }
    ensures kept { IfNone result (to.new ≡ to.old) }
    ensures answer { (shape : Shape) (L : Layout K) (t : Table) (e : ℕ × BucketBox K)
        → IsPageOf shape L t key.now.numbers e from.now count
        → result ≡ get t key.now.numbers }
    ensures plain { (shape : Shape) (L : Layout K) (t : Table) (e : ℕ × BucketBox K)
        → IsPageOf shape L t key.now.numbers e from.now count
        → OnSome result (IsPlainRemove shape L t key.now e to.new) }
{
    match find_on(from, count, key) {
        Ok(at) => {
            remove_into::<K>(from, count, at, to);
            Some(data_on(from, at))
        }
        Err(_before) => None,
    }
}
