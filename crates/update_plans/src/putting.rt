//! A record is put, where need be into a bucket that is cut.
ghost use Rattle.std.specs.Prelude.{◌≡◌, ◌≤◌, ◌<◌, ◌↔◌, ℕ, false, replicate, slice_index_or, is_some, if◌then◌else◌, option_map, IfSome, IfNone, IsTrue, MatchOption};
ghost use Rattle.grid_types.specs.declared.layout_change.LayoutChange.TheVariants as note;
ghost use Rattle.grid_types.specs.declared.sizes.TheConstants.{MOST_ATTRIBUTES, MOST_CELLS};
ghost use Rattle.grid_types.specs.declared.update.Update.TheVariants.{Put};
ghost use Rattle.grid_types.specs.Regions.{is_within, IsRegion};
ghost use Rattle.grid_types.specs.Shapes.{is_shape};
ghost use Rattle.grid_model.specs.Cells.{cells, dims};
ghost use Rattle.grid_model.specs.Cuts as cuts;
ghost use Rattle.grid_model.specs.Layouts as layouts;
ghost use Rattle.grid_model.specs.Layouts.{BucketBox, Layout};
ghost use Rattle.grid_model.specs.Lone.{boundaries};
ghost use Rattle.grid_model.specs.Notes.{put_note, scales_after};
ghost use Rattle.grid_model.specs.Tables.{Table};
ghost use Rattle.linear_scales.specs.Limited.{LimitedScale, scales_of, limits_of};
ghost use Rattle.linear_scales.specs.Refusals.{TakesBoundary};
ghost use Rattle.grid_cells.specs.Dims.{IsDims};
ghost use Rattle.bucket_page.specs.OnPage.{head_told};
ghost use Rattle.change_plans.specs.Plans.{CutsByLayout, IsCutDue, IsPageOf};
ghost use Rattle.directory_changes.specs.Changes.{directory_change, IsChangeOf};
ghost use Rattle.directory_changes.specs.Fresh.{IsFreshFor};
ghost use Rattle.file_books.specs.Books.{AreScalesOf};
ghost use Rattle.file_books.specs.Effects.{scales_after_change};
ghost use Rattle.file_books.specs.declared.record_change.RecordChange.TheVariants.{More, Same};
ghost use Rattle.update_plans.specs.declared.putting.Planned.TheVariants.{NoBucket, NoCut};
ghost use Rattle.update_plans.specs.Plans.{IsPlanOf, IsSoundPlan};
ghost use Rattle.update_plans.specs.Putting.{plain_put, note_planned, is_refinement, refines, HasNoBucketOf, IfNoCut, IfPlan, IsPutNote, OnNoPlan};

use crate::Plan;
use crate::pages::pages_of;
use bucket_page::{Head, judge};
use change_plans::{Placed, cut_of, put_in};
use directory_changes::{DirectoryChange, change_of_cut};
use file_books::RecordChange;
use grid_cells::Dims;
use grid_types::{Cut, Data, LayoutChange, MOST_ATTRIBUTES, PAGE_BYTES, Record, Region, Shape};
use linear_scales::Scales;
use split_policy::Median;

/// What comes of a record that is to be put.
#[derive(Debug, Drop, PartialEq, Eq)]
pub enum Planned<const K: usize> {
    /// It has a plan.
    Plan(Plan<K>),
    /// The bucket is full, and no cut divides its records within the limits: so many cells there are, and so many
    /// boundaries in all scales.
    NoCut { cells: u32, boundaries: u32 },
    /// The page spells no bucket whose region has the key.
    NoBucket,
}

/// What a put does to the number of records, by the data that the key had.
fn change_by_put(old: &Option<Data>) -> RecordChange
    ensures { result ≡ (if is_some old.now then Same else More) }
{
    match old {
        Some(_) => RecordChange::Same,
        None => RecordChange::More,
    }
}

/// The plan of a put that leaves the layout.
fn plain_plan<const K: usize>(bucket: u32, old: Option<Data>) -> Plan<K>
    ensures { result ≡ plain_put bucket old }
{
    let records = change_by_put(&old);
    Plan {
        bucket,
        note: LayoutChange::Plain,
        directory: DirectoryChange::Nothing,
        records,
        old,
        need: 2,
        pages: 1,
    }
}

/// What a cut of a region does to the directory. Where it is at a fresh boundary it makes `refined` the scales with it.
fn directory_by_cut<const K: usize>(
    scales: &Scales<K>,
    refined: &mut Scales<K>,
    region: &Region<K>,
    cut: Cut,
    right: u32,
) -> DirectoryChange<K>
    requires attribute { cut.attribute < K }
    requires within { IsTrue (is_within region.now cut.attribute cut.value) }
    requires fresh { IsFreshFor (scales_of scales.now) cut }
    requires room { (d : LimitedScale)
        → IsTrue cut.fresh
        → TakesBoundary (slice_index_or scales.now cut.attribute d) cut.value }
    requires few { cells (scales_after (scales_of scales.now) cut) ≤ MOST_CELLS }
    requires limits { limits_of refined.old ≡ limits_of scales.now }
    ensures change { (L : Layout K) (e : ℕ × BucketBox K)
        → L.scales ≡ scales_of scales.now
        → region.now ≡ e.1.region
        → result ≡ directory_change L e (note.Cut cut right) }
    ensures fits { IsChangeOf (dims (scales_of scales.now)) result }
    ensures refined { IsTrue cut.fresh
        → scales_of refined.new ≡ scales_after (scales_of scales.now) cut }
    ensures unrefined { cut.fresh ≡ false → refined.new ≡ refined.old }
    ensures limits { limits_of refined.new ≡ limits_of refined.old }
{
    let (_, right_region) = region.cut(cut.attribute, cut.value);
    if !cut.fresh {
        return change_of_cut(scales, scales, &right_region, cut, right);
    }
    refined.copy_from(scales);
    match refined.refine(cut.attribute as usize, cut.value) {
        Ok(()) => {}
        Err(_) => unreachable!(),
    }
    change_of_cut(scales, refined, &right_region, cut, right)
}

/// What a put does whose bucket is cut: makes `first` and `second` the pages of the parts. None where no cut is lawful.
fn plan_cut<const K: usize>(
    head: &Head<K>,
    from: &[u8; PAGE_BYTES],
    row: &Record<K>,
    scales: &Scales<K>,
    refined: &mut Scales<K>,
    unused: u32,
    shape: &Shape,
    first: &mut [u8; PAGE_BYTES],
    second: &mut [u8; PAGE_BYTES],
) -> Option<Plan<K>>
    requires few { K ≤ MOST_ATTRIBUTES }
    requires lawful { IsTrue (is_shape shape.now) }
    requires scales { AreScalesOf K shape.now (scales_of scales.now) }
    requires limits { limits_of scales.now ≡ replicate K shape.now.boundaries }
    requires refined { limits_of refined.old ≡ limits_of scales.now }
    requires head { head.now ≡ head_told K from.now }
    requires region { IsRegion K head.now.region }
    ensures note { (L : Layout K) (t : Table) (e : ℕ × BucketBox K) (n : ℕ)
        → IsCutDue shape.now L t row.now.key.numbers e from.now n
        → CutsByLayout cuts.cut L (scales_of scales.now) unused
        → put_note shape.now L t row.now.key.numbers ≡ option_map (λ p. p.note) result }
    ensures plan { (L : Layout K) (t : Table) (e : ℕ × BucketBox K) (n : ℕ)
        → IsCutDue shape.now L t row.now.key.numbers e from.now n
        → CutsByLayout cuts.cut L (scales_of scales.now) unused
        → IfSome result (IsPlanOf shape.now L t (Put row.now) e first.new second.new) }
    ensures number { IfSome result (λ p. p.bucket ≡ head.now.number) }
    ensures right { IfSome result (λ p. IsPutNote K unused p.note) }
    ensures sound { IfSome result
        (IsSoundPlan shape.now (scales_of scales.now) (Put row.now)) }
    ensures refined { IfSome result (λ p. IsTrue (is_refinement p.note)
        → scales_of refined.new ≡ scales_after_change (scales_of scales.now) p.note) }
    ensures unrefined { MatchOption result
        (refined.new ≡ refined.old)
        (λ p. is_refinement p.note ≡ false → refined.new ≡ refined.old) }
    ensures limits { limits_of refined.new ≡ limits_of refined.old }
    ensures kept_first { IfNone result (first.new ≡ first.old) }
    ensures kept_second { IfNone result (second.new ≡ second.old) }
{
    let Some(cut) = cut_of(&Median, from, row, scales, shape, unused, first, second) else {
        return None;
    };
    let directory = directory_by_cut(scales, refined, &head.region, cut, unused);
    let pages = pages_of(2, scales, &directory);
    Some(Plan {
        bucket: head.number,
        note: LayoutChange::Cut { cut, right: unused },
        directory,
        records: RecordChange::More,
        old: None,
        need: pages + 1,
        pages,
    })
}

/// The refusal of a put whose bucket can't be cut.
fn no_cut<const K: usize>(scales: &Scales<K>) -> Planned<K>
    requires few { K ≤ MOST_ATTRIBUTES }
    requires dims { IsDims (dims (scales_of scales.now)) }
    ensures { result ≡ NoCut
        (cells (scales_of scales.now))
        (boundaries (scales_of scales.now)) }
{
    let dims = Dims {
        intervals: scales.dims(),
    };
    Planned::NoCut {
        cells: dims.cells(),
        boundaries: scales.boundaries(),
    }
}

/// What the put of a record does: makes `first` the page of its bucket with it, or `first` and `second` the pages of the two
/// parts into which the bucket is cut, the right one with the number `unused`. Where a boundary is fresh, `refined` are the
/// scales with it.
pub fn plan_put<const K: usize>(
    from: &[u8; PAGE_BYTES],
    row: &Record<K>,
    scales: &Scales<K>,
    refined: &mut Scales<K>,
    unused: u32,
    shape: &Shape,
    first: &mut [u8; PAGE_BYTES],
    second: &mut [u8; PAGE_BYTES],
) -> Planned<K>
    requires few { K ≤ MOST_ATTRIBUTES }
    requires lawful { IsTrue (is_shape shape.now) }
    requires scales { AreScalesOf K shape.now (scales_of scales.now) }
    requires limits { limits_of scales.now ≡ replicate K shape.now.boundaries }
    requires refined { limits_of refined.old ≡ limits_of scales.now }
    ensures bucket { (result ≡ NoBucket)
        ↔ HasNoBucketOf K shape.now.capacity from.now row.now.key.numbers }
    ensures note { (L : Layout K) (t : Table) (e : ℕ × BucketBox K) (n : ℕ)
        → IsPageOf shape.now L t row.now.key.numbers e from.now n
        → scales_of scales.now ≡ L.scales
        → unused ≡ layouts.unused L
        → note_planned result ≡ put_note shape.now L t row.now.key.numbers }
    ensures plan { (L : Layout K) (t : Table) (e : ℕ × BucketBox K) (n : ℕ)
        → IsPageOf shape.now L t row.now.key.numbers e from.now n
        → scales_of scales.now ≡ L.scales
        → unused ≡ layouts.unused L
        → IfPlan result (IsPlanOf shape.now L t (Put row.now) e first.new second.new) }
    ensures cells { IfNoCut result (λ n m. n ≡ cells (scales_of scales.now)) }
    ensures boundaries { IfNoCut result (λ n m. m ≡ boundaries (scales_of scales.now)) }
    ensures number { IfPlan result (λ p. p.bucket ≡ (head_told K from.now).number) }
    ensures right { IfPlan result (λ p. IsPutNote K unused p.note) }
    ensures sound { IfPlan result
        (IsSoundPlan shape.now (scales_of scales.now) (Put row.now)) }
    ensures refined { IfPlan result (λ p. IsTrue (is_refinement p.note)
        → scales_of refined.new ≡ scales_after_change (scales_of scales.now) p.note) }
    ensures unrefined { refines result ≡ false → refined.new ≡ refined.old }
    ensures limits { limits_of refined.new ≡ limits_of refined.old }
    ensures kept_first { OnNoPlan result (first.new ≡ first.old) }
    ensures kept_second { OnNoPlan result (second.new ≡ second.old) }
{
    let Some(head) = judge::<K>(from, shape.capacity) else {
        return Planned::NoBucket;
    };
    if !head.region.contains(&row.key) {
        return Planned::NoBucket;
    }
    match put_in(from, head.count as usize, shape.capacity, row, first) {
        Placed::Done(old) => Planned::Plan(plain_plan(head.number, old)),
        Placed::CutDue => {
            match plan_cut(
                &head, from, row, scales, refined, unused, shape, first, second,
            ) {
                Some(plan) => Planned::Plan(plan),
                None => no_cut(scales),
            }
        }
    }
}
