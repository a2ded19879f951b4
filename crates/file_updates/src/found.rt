//! What an update does whose bucket was found.
ghost use Rattle.std.specs.Prelude.{◌≡◌, ◌≢◌, ◌≤◌, ℕ, None, Some, is_some, IfErr, IfOk, IfSome, IsTrue};
ghost use Rattle.grid_types.specs.declared.layout_change.LayoutChange.TheVariants as note;
ghost use Rattle.grid_types.specs.declared.owner.Owner.TheVariants.{Bucket};
ghost use Rattle.grid_types.specs.declared.refusal.Refusal.TheVariants as refusal;
ghost use Rattle.grid_types.specs.declared.shape.Shape.{Shape};
ghost use Rattle.grid_types.specs.declared.sizes.TheConstants.{MOST_ATTRIBUTES};
ghost use Rattle.grid_types.specs.declared.update.Update.TheVariants.{Put, Remove};
ghost use Rattle.grid_model.specs.Cells.{cells};
ghost use Rattle.grid_model.specs.Lawful.{StandsWith};
ghost use Rattle.grid_model.specs.Layouts.{BucketBox, Layout};
ghost use Rattle.grid_model.specs.Lone.{boundaries};
ghost use Rattle.grid_model.specs.Notes.{put_note, updated_key};
ghost use Rattle.grid_model.specs.Tables.{Table, get};
ghost use Rattle.bucket_page.specs.OnPage.{head_told};
ghost use Rattle.history_pages.specs.PageLaws.{IsChange};
ghost use Rattle.change_plans.specs.Plans.{IsPageBeside};
ghost use Rattle.query_paths.specs.Pinned.{IsPinnedTo};
ghost use Rattle.query_paths.specs.Finding.{IsBoxFound, IsBucketFound};
ghost use Rattle.file_books.specs.Books.{Books, AreBooksOf, has_page};
ghost use Rattle.update_plans.specs.declared.plan.Plan.{Plan};
ghost use Rattle.update_plans.specs.Plans.{IsPlanOf};
ghost use Rattle.grid_file.specs.Pages.{front_place};
ghost use Rattle.file_updates.specs.Ready.{IsReadyPlan};
ghost use Rattle.file_updates.specs.Rooms.{HasRoomFor};
ghost use Rattle.file_updates.specs.Plans.{IsPlannedAs};

use crate::UpdateRoom;
use disk_trait::Disk;
use file_state::FileState;
use grid_file::GridFile;
use grid_types::{Key, LayoutChange, Record, Refusal, Update};
use update_plans::{Plan, Planned, plan_merge, plan_put, plan_removal};

/// The key that an update is about.
pub fn key_of<const K: usize>(update: &Update<K>) -> &Key<K>
    ensures { result.now.numbers ≡ updated_key update.now }
{
    match update {
        Update::Put(row) => &row.key,
        Update::Remove(key) => key,
    }
}

/// A plan, where it has that note.
pub fn as_noted<const K: usize>(plan: Option<Plan<K>>, note: LayoutChange) -> Option<Plan<K>>
    ensures same { (p : Plan K)
        → plan.entry ≡ Some p
        → p.note ≡ note
        → result ≡ Some p }
    ensures note { IfSome result (λ p. p.note ≡ note) }
    ensures from { IfSome result (λ p. plan.entry ≡ Some p) }
{
    let Some(plan) = plan else {
        return None;
    };
    if plan.note == note { Some(plan) } else { None }
}

/// What the put of a record does whose bucket was found.
pub fn plan_found_put<const K: usize, D: Disk>(
    file: &mut GridFile<K, D>,
    row: &Record<K>,
    room: &mut UpdateRoom<K>,
) -> Result<Plan<K>, Refusal>
    requires few { K ≤ MOST_ATTRIBUTES }
    requires room { HasRoomFor file.old.books.shape room.old }
    requires found { IsBucketFound (front_place D.Disk file.old) row.now.key.numbers
        room.old.found.value (head_told K room.old.found.value) }
    ensures plan { (L : Layout K) (t : Table) (e : ℕ × BucketBox K)
        → IsPinnedTo (front_place D.Disk file.old) L t
        → IsBoxFound file.old.books.shape L t row.now.key.numbers e
        room.old.found.value (head_told K room.old.found.value)
        → IfOk result (IsPlanOf file.old.books.shape L t (Put row.now) e
        room.new.first.value room.new.second.value) }
    ensures note { (L : Layout K) (t : Table) (e : ℕ × BucketBox K)
        → IsPinnedTo (front_place D.Disk file.old) L t
        → IsBoxFound file.old.books.shape L t row.now.key.numbers e
        room.old.found.value (head_told K room.old.found.value)
        → IfOk result (λ p.
        put_note file.old.books.shape L t row.now.key.numbers ≡ Some p.note) }
    ensures refused { (L : Layout K) (t : Table) (e : ℕ × BucketBox K)
        → IsPinnedTo (front_place D.Disk file.old) L t
        → IsBoxFound file.old.books.shape L t row.now.key.numbers e
        room.old.found.value (head_told K room.old.found.value)
        → IfErr result (λ r. put_note file.old.books.shape L t row.now.key.numbers ≡ None) }
    ensures cause { IfErr result (λ r. r
        ≡ refusal.NoCut (cells file.old.books.scales) (boundaries file.old.books.scales)) }
    ensures bucket { IfOk result (λ p. p.bucket ≡ (head_told K room.old.found.value).number) }
    ensures ready { IfOk result (IsReadyPlan file.old.books (Put row.now)) }
    ensures fits { IfOk result (λ p. StandsWith (Put row.now) p.note) }
    ensures file { file.new ≡ file.old }
    ensures found { room.new.found ≡ room.old.found }
    ensures room { HasRoomFor file.old.books.shape room.new }
{
    let unused = file.least_unused();
    let state = file.state();
    let shape = state.geometry().shape;
    let (found, refined) = (&room.found, &mut room.refined);
    let (first, second) = (&mut room.first, &mut room.second);
    match plan_put(
        found,
        row,
        state.scales(),
        refined,
        unused,
        &shape,
        first,
        second,
    ) {
        Planned::Plan(plan) => Ok(plan),
        Planned::NoCut { cells, boundaries } => Err(Refusal::NoCut { cells, boundaries }),
        Planned::NoBucket => unreachable!(),
    }
}

/// What the removal of a key does whose bucket was found, where the layout stays. None where the key is absent.
pub fn plan_found_removal<const K: usize>(key: &Key<K>, room: &mut UpdateRoom<K>) -> Option<Plan<K>>
    requires few { K ≤ MOST_ATTRIBUTES }
    ensures exactly { (shape : Shape) (L : Layout K) (t : Table) (e : ℕ × BucketBox K)
        → IsBoxFound shape L t key.now.numbers e
        room.old.found.value (head_told K room.old.found.value)
        → is_some result ≡ is_some (get t key.now.numbers) }
    ensures plan { (shape : Shape) (L : Layout K) (t : Table) (e : ℕ × BucketBox K)
        → IsBoxFound shape L t key.now.numbers e
        room.old.found.value (head_told K room.old.found.value)
        → IfSome result (IsPlanOf shape L t (Remove key.now) e
        room.new.first.value room.new.second.value) }
    ensures note { IfSome result (λ p. p.note ≡ note.Plain) }
    ensures fits { IfSome result (λ p. StandsWith (Remove key.now) p.note) }
    ensures ready { (b : Books)
        → AreBooksOf K b
        → IsTrue (has_page b (Bucket (head_told K room.old.found.value).number))
        → IfSome result (IsReadyPlan b (Remove key.now)) }
    ensures found { room.new.found ≡ room.old.found }
    ensures room { room.new.refined ≡ room.old.refined }
{
    plan_removal(&room.found, key, &mut room.first)
}

/// What the removal of a key does whose bucket was found, where it is joined with another one, whose page stands beside it.
/// None where the key is absent, the two do not join, or the other one has another number.
pub fn plan_found_merge<const K: usize>(
    state: &FileState<K>,
    with: u32,
    key: &Key<K>,
    room: &mut UpdateRoom<K>,
) -> Option<Plan<K>>
    requires few { K ≤ MOST_ATTRIBUTES }
    ensures planned { (L : Layout K) (t : Table) (e : ℕ × BucketBox K) (c : BucketBox K)
        → state.now.scales ≡ L.scales
        → IsBoxFound state.now.shape L t key.now.numbers e
        room.old.found.value (head_told K room.old.found.value)
        → IsPageBeside state.now.shape L t e (with, c) room.old.beside.value
        → IsChange state.now.shape L t (Remove key.now) (note.Merge with) e
        → IsPlannedAs state.now.shape L t (Remove key.now) e (note.Merge with)
        room.new.first.value room.new.second.value result }
    ensures note { IfSome result (λ p. p.note ≡ note.Merge with) }
    ensures fits { IfSome result (λ p. StandsWith (Remove key.now) p.note) }
    ensures ready { IsTrue (has_page state.now (Bucket (head_told K room.old.found.value).number))
        → IsTrue (has_page state.now (Bucket with))
        → with ≢ (head_told K room.old.found.value).number
        → IfSome result (IsReadyPlan state.now (Remove key.now)) }
    ensures found { room.new.found ≡ room.old.found }
    ensures room { room.new.refined ≡ room.old.refined }
{
    let shape = state.geometry().shape;
    let (found, beside) = (&room.found, &room.beside);
    let (scales, first) = (state.scales(), &mut room.first);
    let plan = plan_merge(found, beside, key, scales, &shape, first);
    as_noted(plan, LayoutChange::Merge { with })
}
