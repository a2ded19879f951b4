//! A bucket that is cut.
ghost use Rattle.std.specs.Prelude.{◌≡◌, ◌≤◌, ◌<◌, ◌+◌, ℕ, IfSome, IfNone, IsTrue, MatchOption};
ghost use Rattle.std.specs.Option.{option_map};
ghost use Rattle.grid_types.specs.declared.sizes.TheConstants.{MOST_ATTRIBUTES, MOST_RECORDS};
ghost use Rattle.grid_types.specs.Regions.{is_within};
ghost use Rattle.grid_model.specs.Buckets.{IsBucket, SpellsBucket};
ghost use Rattle.grid_model.specs.Cuts.{divides};
ghost use Rattle.grid_model.specs.Layouts.{BucketBox, Layout};
ghost use Rattle.grid_model.specs.Notes.{put_note, cut_note};
ghost use Rattle.grid_model.specs.Tables.{Table};
ghost use Rattle.linear_scales.specs.Limited.{scales_of};
ghost use Rattle.split_policy.specs.Rows.{keys_of, LieIn};
ghost use Rattle.bucket_page.specs.Buckets.{bucket_of};
ghost use Rattle.bucket_page.specs.Changing.{left_bucket, right_bucket};
ghost use Rattle.bucket_page.specs.OnPage.{head_told};
ghost use Rattle.change_plans.specs.Plans.{OfOverfull, IsCutDue, CutsByLayout, IsCutPut};
ghost use Rattle.change_plans.specs.Cutting.{IsCutWithin};

use bucket_page::{Bucket, decode, encode};
use grid_types::{Cut, MOST_ATTRIBUTES, MOST_RECORDS, PAGE_BYTES, Record, Shape};
use linear_scales::Scales;
use split_policy::CutRule;

/// The bucket of a page with that record, one that its region has.
fn overfull<const K: usize>(
    from: &[u8; PAGE_BYTES],
    capacity: u16,
    row: &Record<K>,
) -> Option<Bucket<K>>
    requires few { K ≤ MOST_ATTRIBUTES }
    requires lawful { capacity ≤ MOST_RECORDS }
    ensures there { OfOverfull capacity from.now row.now
        (λ b. MatchOption result ⊥ (λ o. bucket_of o ≡ b)) }
    ensures inside { IfSome result (λ o. LieIn o.region o.rows.items) }
    ensures lawful { IfSome result (λ o. IsBucket (capacity + 1) (bucket_of o)) }
    ensures region { IfSome result (λ o. o.region ≡ (head_told K from.now).region) }
{
    let Some(mut bucket) = decode::<K>(from, capacity) else {
        return None;
    };
    if !bucket.region.contains(&row.key) {
        return None;
    }
    bucket.insert(row);
    Some(bucket)
}

/// Makes `left` and `right` the pages of the parts of a bucket.
fn write_parts<const K: usize>(
    bucket: &Bucket<K>,
    cut: &Cut,
    unused: u32,
    capacity: u16,
    left: &mut [u8; PAGE_BYTES],
    right: &mut [u8; PAGE_BYTES],
)
    requires few { K ≤ MOST_ATTRIBUTES }
    requires lawful { capacity ≤ MOST_RECORDS }
    requires attribute { cut.now.attribute < K }
    requires within { IsTrue (is_within bucket.now.region cut.now.attribute cut.now.value) }
    requires divides { IsTrue
        (divides (keys_of bucket.now.rows.items) cut.now.attribute cut.now.value) }
    requires bucket { IsBucket (capacity + 1) (bucket_of bucket.now) }
    ensures left { SpellsBucket capacity left.new (left_bucket (bucket_of bucket.now) cut.now) }
    ensures right { SpellsBucket capacity right.new
        (right_bucket (bucket_of bucket.now) cut.now unused) }
{
    encode(&bucket.left_part(cut), capacity, left);
    encode(&bucket.right_part(cut, unused), capacity, right);
}

/// Cuts the bucket of `from` with that record by the rule: makes `left` and `right` the pages of its parts, the right one
/// with the number `unused`. None where the rule has no cut.
pub fn cut_of<const K: usize, R: CutRule<K>>(
    rule: &R,
    from: &[u8; PAGE_BYTES],
    row: &Record<K>,
    scales: &Scales<K>,
    shape: &Shape,
    unused: u32,
    left: &mut [u8; PAGE_BYTES],
    right: &mut [u8; PAGE_BYTES],
) -> Option<Cut>
    requires few { K ≤ MOST_ATTRIBUTES }
    requires lawful { shape.now.capacity ≤ MOST_RECORDS }
    ensures attribute { IfSome result (λ c. c.attribute < K) }
    ensures lawful { IfSome result
        (IsCutWithin shape.now (scales_of scales.now) (head_told K from.now).region) }
    ensures value { OfOverfull shape.now.capacity from.now row.now
        (λ b. result ≡ R.chosen rule.now shape.now (scales_of scales.now) b.box (keys_of b.rows)) }
    ensures left { OfOverfull shape.now.capacity from.now row.now
        (λ b. IfSome result (λ c. SpellsBucket shape.now.capacity left.new (left_bucket b c))) }
    ensures right { OfOverfull shape.now.capacity from.now row.now
        (λ b. IfSome result
        (λ c. SpellsBucket shape.now.capacity right.new (right_bucket b c unused))) }
    ensures kept_left { IfNone result (left.new ≡ left.old) }
    ensures kept_right { IfNone result (right.new ≡ right.old) }
    ensures noted { (L : Layout K) (t : Table) (e : ℕ × BucketBox K) (n : ℕ)
        → IsCutDue shape.now L t row.now.key.numbers e from.now n
        → CutsByLayout (R.chosen rule.now) L (scales_of scales.now) unused
        → put_note shape.now L t row.now.key.numbers ≡ option_map (cut_note L) result }
    ensures pages { (L : Layout K) (t : Table) (e : ℕ × BucketBox K) (n : ℕ)
        → IsCutDue shape.now L t row.now.key.numbers e from.now n
        → CutsByLayout (R.chosen rule.now) L (scales_of scales.now) unused
        → IfSome result (λ c. IsCutPut L t row.now e c unused left.new right.new) }
{
    let Some(bucket) = overfull(from, shape.capacity, row) else {
        return None;
    };
    let rows = bucket.rows.as_slice();
    let Some(cut) = rule.cut(rows, scales, &bucket.region, bucket.turn, shape) else {
        return None;
    };
    write_parts(&bucket, &cut, unused, shape.capacity, left, right);
    Some(cut)
}
