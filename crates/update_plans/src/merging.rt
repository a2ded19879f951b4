//! A record is removed, and its bucket is joined with another one.
ghost use Rattle.std.specs.Prelude.{◌≡◌, ◌≤◌, ◌&&◌, ℕ, [], is_some, nat_lt, if◌then◌else◌, IfSome, IfNone, IsTrue};
ghost use Rattle.grid_types.specs.declared.layout_change.LayoutChange.TheVariants as note;
ghost use Rattle.grid_types.specs.declared.sizes.TheConstants.{MOST_ATTRIBUTES};
ghost use Rattle.grid_types.specs.declared.update.Update.TheVariants.{Remove};
ghost use Rattle.grid_types.specs.Shapes.{is_shape};
ghost use Rattle.grid_model.specs.Layouts.{BucketBox, Layout};
ghost use Rattle.grid_model.specs.Neighbours.{can_join};
ghost use Rattle.grid_model.specs.Tables.{Table, get, without};
ghost use Rattle.linear_scales.specs.Limited.{scales_of};
ghost use Rattle.history_pages.specs.PageLaws.{IsChange};
ghost use Rattle.bucket_page.specs.OnPage.{head_told};
ghost use Rattle.change_plans.specs.Plans.{IsPageOf, IsPageBeside};
ghost use Rattle.file_books.specs.Books.{AreScalesOf};
ghost use Rattle.update_plans.specs.Plans.{IsPlanOf, IsSoundPlan};

use crate::Plan;
use crate::pages::pages_of;
use bucket_page::{Head, get_on, judge};
use change_plans::join_of;
use directory_changes::change_of_merge;
use file_books::RecordChange;
use grid_types::{Key, LayoutChange, MOST_ATTRIBUTES, PAGE_BYTES, Region, Shape};
use linear_scales::Scales;

/// The region of the bucket of the higher number.
fn vanishing<const K: usize>(head: &Head<K>, beside: &Head<K>) -> Region<K>
    ensures { result ≡ (if nat_lt beside.now.number head.now.number then head.now.region
        else beside.now.region) }
{
    if beside.number < head.number {
        head.region
    } else {
        beside.region
    }
}

/// What the removal of a key does where its bucket is joined with another one: makes `joined` the page of the two. None
/// where the bucket does not have the key, or the two do not join.
pub fn plan_merge<const K: usize>(
    from: &[u8; PAGE_BYTES],
    other: &[u8; PAGE_BYTES],
    key: &Key<K>,
    scales: &Scales<K>,
    shape: &Shape,
    joined: &mut [u8; PAGE_BYTES],
) -> Option<Plan<K>>
    requires few { K ≤ MOST_ATTRIBUTES }
    requires lawful { IsTrue (is_shape shape.now) }
    requires scales { AreScalesOf K shape.now (scales_of scales.now) }
    ensures exactly { (L : Layout K) (t : Table) (e f : ℕ × BucketBox K) (n : ℕ)
        → IsPageOf shape.now L t key.now.numbers e from.now n
        → IsPageBeside shape.now L t e f other.now
        → is_some result ≡ (is_some (get t key.now.numbers)
        && can_join shape.now (without t key.now.numbers) e.1.region f.1.region) }
    ensures plan { (L : Layout K) (t : Table) (e f : ℕ × BucketBox K) (n : ℕ)
        → IsPageOf shape.now L t key.now.numbers e from.now n
        → IsPageBeside shape.now L t e f other.now
        → scales_of scales.now ≡ L.scales
        → IsChange shape.now L t (Remove key.now) (note.Merge f.0) e
        → IfSome result (IsPlanOf shape.now L t (Remove key.now) e joined.new []) }
    ensures note { (L : Layout K) (t : Table) (e f : ℕ × BucketBox K)
        → IsPageBeside shape.now L t e f other.now
        → IfSome result (λ p. p.note ≡ note.Merge f.0) }
    ensures number { IfSome result (λ p. p.bucket ≡ (head_told K from.now).number) }
    ensures with { IfSome result (λ p. p.note ≡ note.Merge (head_told K other.now).number) }
    ensures sound { IfSome result (IsSoundPlan shape.now (scales_of scales.now) (Remove key.now)) }
    ensures kept { IfNone result (joined.new ≡ joined.old) }
{
    let Some(head) = judge::<K>(from, shape.capacity) else {
        return None;
    };
    let Some(beside) = judge::<K>(other, shape.capacity) else {
        return None;
    };
    let Some(old) = get_on(from, head.count as usize, key) else {
        return None;
    };
    let Some(survivor) = join_of(from, key, other, shape.capacity, joined) else {
        return None;
    };
    let directory = change_of_merge(scales, &vanishing(&head, &beside), survivor);
    let pages = pages_of(1, scales, &directory);
    Some(Plan {
        bucket: head.number,
        note: LayoutChange::Merge {
            with: beside.number,
        },
        directory,
        records: RecordChange::Fewer,
        old: Some(old),
        need: pages,
        pages,
    })
}
