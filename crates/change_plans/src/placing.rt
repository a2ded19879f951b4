//! A record that is put into a bucket where there is room for it.
ghost use Rattle.std.specs.Prelude.{◌≡◌, ◌≤◌, ◌↔◌, ℕ, None, IsTrue};
ghost use Rattle.grid_types.specs.declared.shape.Shape.{Shape};
ghost use Rattle.grid_types.specs.declared.sizes.TheConstants.{MOST_ATTRIBUTES, MOST_RECORDS};
ghost use Rattle.grid_types.specs.Regions.{contains};
ghost use Rattle.grid_model.specs.Buckets.{SpellsBucket};
ghost use Rattle.grid_model.specs.Layouts.{BucketBox, Layout};
ghost use Rattle.grid_model.specs.Tables.{Table, get, pairs_of};
ghost use Rattle.bucket_page.specs.OnPage.{OfBucket};
ghost use Rattle.bucket_page.specs.Putting.{with_record};
ghost use Rattle.change_plans.specs.declared.placing.Placed.TheVariants.{CutDue};
ghost use Rattle.change_plans.specs.Plans.{IsPageOf, IsCutDue, IsPlainPut};
ghost use Rattle.change_plans.specs.Placing.{IfDone, OnDone, OnDue};

use bucket_page::{data_on, find_on, insert_into, replace_into};
use grid_types::{Data, MOST_ATTRIBUTES, MOST_RECORDS, PAGE_BYTES, Record};

/// What comes of a record that is put into a bucket.
#[derive(Debug, Drop, PartialEq, Eq)]
pub enum Placed {
    /// It is there, in place of the data that the key had, if it had any.
    Done(Option<Data>),
    /// The bucket is full: it has to be cut.
    CutDue,
}

/// Makes `to` the page of the bucket of `from` with that record, unless it is full and does not have the key.
pub fn put_in<const K: usize>(
    from: &[u8; PAGE_BYTES],
    count: usize,
    capacity: u16,
    row: &Record<K>,
    to: &mut [u8; PAGE_BYTES],
) -> Placed
    requires few { K ≤ MOST_ATTRIBUTES }
    requires lawful { capacity ≤ MOST_RECORDS }
    requires fits { count ≤ capacity }
    ensures old { OfBucket K from.now count
        (λ b. IfDone result (λ old. old ≡ get (pairs_of b.rows) row.now.key.numbers)) }
    ensures spelled { OfBucket K from.now count
        (λ b. IsTrue (contains b.box.region row.now.key.numbers)
        → OnDone result (SpellsBucket capacity to.new (with_record b row.now))) }
    ensures due { OfBucket K from.now count
        (λ b. (result ≡ CutDue)
        ↔ ((get (pairs_of b.rows) row.now.key.numbers ≡ None) × (count ≡ capacity))) }
    ensures kept { OnDue result (to.new ≡ to.old) }
    ensures plain { (shape : Shape) (L : Layout K) (t : Table) (e : ℕ × BucketBox K)
        → IsPageOf shape L t row.now.key.numbers e from.now count
        → shape.capacity ≡ capacity
        → IfDone result (λ old. IsPlainPut shape L t row.now e old to.new) }
    ensures cut { (shape : Shape) (L : Layout K) (t : Table) (e : ℕ × BucketBox K)
        → IsPageOf shape L t row.now.key.numbers e from.now count
        → shape.capacity ≡ capacity
        → OnDue result (IsCutDue shape L t row.now.key.numbers e from.now count) }
{
    match find_on(from, count, &row.key) {
        Ok(at) => {
            replace_into(from, at, row, to);
            Placed::Done(Some(data_on(from, at)))
        }
        Err(at) => {
            if count == capacity as usize {
                return Placed::CutDue;
            }
            insert_into(from, count, at, row, to);
            Placed::Done(None)
        }
    }
}
