//! A record is removed, and the layout stays.
ghost use Rattle.std.specs.Prelude.{◌≡◌, ◌≤◌, ℕ, List, [], is_some, IfSome, IfNone};
ghost use Rattle.grid_types.specs.declared.layout_change.LayoutChange.TheVariants as note;
ghost use Rattle.grid_types.specs.declared.shape.Shape.{Shape};
ghost use Rattle.grid_types.specs.declared.sizes.TheConstants.{MOST_ATTRIBUTES};
ghost use Rattle.grid_types.specs.declared.update.Update.TheVariants.{Remove};
ghost use Rattle.grid_model.specs.Layouts.{BucketBox, Layout};
ghost use Rattle.grid_model.specs.Tables.{Table, get};
ghost use Rattle.bucket_page.specs.OnPage.{head_told};
ghost use Rattle.change_plans.specs.Plans.{IsPageOf};
ghost use Rattle.file_books.specs.Books.{AreScalesOf};
ghost use Rattle.update_plans.specs.Plans.{IsPlanOf, IsSoundPlan};

use crate::Plan;
use bucket_page::judge;
use change_plans::take_from;
use directory_changes::DirectoryChange;
use file_books::RecordChange;
use grid_types::{Key, LayoutChange, MOST_ATTRIBUTES, MOST_RECORDS, PAGE_BYTES};

/// What the removal of a key does where the layout stays: makes `left` the page of its bucket without it. None where the
/// bucket does not have the key.
pub fn plan_removal<const K: usize>(
    from: &[u8; PAGE_BYTES],
    key: &Key<K>,
    left: &mut [u8; PAGE_BYTES],
) -> Option<Plan<K>>
    requires few { K ≤ MOST_ATTRIBUTES }
    ensures exactly { (shape : Shape) (L : Layout K) (t : Table) (e : ℕ × BucketBox K) (n : ℕ)
        → IsPageOf shape L t key.now.numbers e from.now n
        → is_some result ≡ is_some (get t key.now.numbers) }
    ensures plan { (shape : Shape) (L : Layout K) (t : Table) (e : ℕ × BucketBox K) (n : ℕ)
        → IsPageOf shape L t key.now.numbers e from.now n
        → IfSome result (IsPlanOf shape L t (Remove key.now) e left.new []) }
    ensures sound { (shape : Shape) (scales : List (List ℕ))
        → AreScalesOf K shape scales
        → IfSome result (IsSoundPlan shape scales (Remove key.now)) }
    ensures number { IfSome result (λ p. p.bucket ≡ (head_told K from.now).number) }
    ensures note { IfSome result (λ p. p.note ≡ note.Plain) }
    ensures kept { IfNone result (left.new ≡ left.old) }
{
    let Some(head) = judge::<K>(from, MOST_RECORDS as u16) else {
        return None;
    };
    let Some(old) = take_from(from, head.count as usize, key, left) else {
        return None;
    };
    Some(Plan {
        bucket: head.number,
        note: LayoutChange::Plain,
        directory: DirectoryChange::Nothing,
        records: RecordChange::Fewer,
        old: Some(old),
        need: 1,
        pages: 1,
    })
}
