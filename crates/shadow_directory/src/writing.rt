//! The new pages of a change, one after the other.
ghost use Rattle.std.specs.Prelude.{◌≡◌, ◌<◌, ◌≤◌, ◌*◌, ◌+◌, ◌∷◌, ◌++◌, [], ℕ, List, length, map, IsTrue, OnOk, OnErr, IfErr};
ghost use Rattle.grid_types.specs.declared.layout_change.LayoutChange.{LayoutChange};
ghost use Rattle.grid_types.specs.declared.owner.Owner.TheVariants.{Bucket, Part};
ghost use Rattle.grid_types.specs.declared.shape.Shape.{Shape};
ghost use Rattle.grid_types.specs.declared.update.Update.{Update};
ghost use Rattle.grid_types.specs.Shapes.{word_pages};
ghost use Rattle.grid_model.specs.Lists.{product, is_among};
ghost use Rattle.grid_model.specs.Cells as cells;
ghost use Rattle.grid_model.specs.Tables.{Table};
ghost use Rattle.grid_model.specs.Layouts.{BucketBox, Layout};
ghost use Rattle.grid_model.specs.Lone.{renewed};
ghost use Rattle.history_pages.specs.PageLaws.{IsChange};
ghost use Rattle.directory_changes.specs.Changes.{directory_change, parts_after, parts_changed, IsChangeOf};
ghost use Rattle.shadow_directory.specs.Pages.{BeganFor, Ticks};
ghost use Rattle.shadow_directory.specs.Calls.{Keeps, Tells, TellsPages, Holds, IsCause, IsFault};
ghost use Rattle.shadow_directory.specs.Directories.{AreAfter};
ghost use Rattle.shadow_directory.specs.Reads.{page_reads, part_reads, held_after};
ghost use Rattle.shadow_directory.specs.WrittenParts.{WritesPart};
ghost use Rattle.history_pages.specs.NewPages.{new_page, new_pages};
ghost use Rattle.shadow_directory.specs.NewPages.{bucket_pages, part_pages, WroteParts, WroteChange};

use crate::growing::grow_part;
use crate::patching::patch_part;
use crate::refined::refined;
use crate::{ChangePages, NewBucket, PartRoom};
use directory_changes::{DirectoryChange, is_changed, parts_after};
use disk_trait::{DiskFailed, Steps};
use grid_cells::Dims;
use grid_types::{Owner, PAGE_BYTES, Refusal};
use std::sync::ledger::Ledger;

/// Writes the new page of an owner.
pub fn write_page<P: ChangePages>(
    pages: &mut P,
    owner: Owner,
    page: &[u8; PAGE_BYTES],
) -> Result<(), Refusal>
    requires { 1 ≤ P.room pages.old }
    ensures written { OnOk result
        (P.written pages.new ≡ P.written pages.old ++ (owner, page.now) ∷ []) }
    ensures began { OnErr result
        (BeganFor (owner ∷ []) (P.written pages.old) (P.written pages.new)) }
    ensures left { OnOk result (P.room pages.new + 1 ≡ P.room pages.old) }
    ensures same { Keeps P.ChangePages pages.old pages.new }
    ensures fault { IfErr result IsFault }
    ensures cause { (ns bytes : List ℕ)
        → IfErr result (IsCause P.ChangePages ns pages.old pages.new bytes) }
{
    match pages.write_new(owner, page) {
        Ok(()) => Ok(()),
        Err(DiskFailed) => Err(Refusal::WriteFault),
    }
}

/// Writes the new pages of buckets.
fn write_buckets<P: ChangePages>(pages: &mut P, buckets: &[NewBucket<'_>]) -> Result<(), Refusal>
    requires { length buckets.now ≤ P.room pages.old }
    ensures written { OnOk result
        (P.written pages.new ≡ P.written pages.old ++ bucket_pages buckets.now) }
    ensures began { OnErr result (BeganFor (map (λ b. Bucket b.number) buckets.now)
        (P.written pages.old) (P.written pages.new)) }
    ensures left { OnOk result (P.room pages.new + length buckets.now ≡ P.room pages.old) }
    ensures same { Keeps P.ChangePages pages.old pages.new }
    ensures fault { IfErr result IsFault }
    ensures cause { (ns bytes : List ℕ)
        → IfErr result (IsCause P.ChangePages ns pages.old pages.new bytes) }
{
    for bucket in buckets {
        write_page(pages, Owner::Bucket(bucket.number), bucket.page)?;
    }
    Ok(())
}

/// Writes a part that the change renews.
fn write_part<const K: usize, P: ChangePages, L: Ledger>(
    pages: &mut P,
    part: u32,
    dims: &Dims<K>,
    change: &DirectoryChange<K>,
    held: &mut Option<u32>,
    room: &mut PartRoom,
    steps: &mut Steps<L>,
) -> Result<(), Refusal>
    requires change { IsChangeOf dims.now.intervals change.now }
    requires changed { IsTrue (is_among (parts_changed dims.now.intervals change.now) part) }
    requires parts { P.parts pages.old ≡ word_pages (product dims.now.intervals) }
    requires room { 1 ≤ P.room pages.old }
    requires held { Holds P.ChangePages dims.now.intervals pages.old held.old room.old.old_page }
    ensures writes { WritesPart P.ChangePages dims.now.intervals change.now part
        result pages.old pages.new room.new.old_page }
    ensures held { Holds P.ChangePages dims.now.intervals pages.new held.new room.new.old_page }
    ensures last { OnOk result
        (held.new ≡ held_after dims.now.intervals change.now held.old part) }
    ensures ticks { Ticks (part_reads dims.now.intervals change.now held.old part)
        steps.old steps.new result }
{
    match change {
        DirectoryChange::Nothing => unreachable!(),
        DirectoryChange::Patch { cells, bucket } => {
            *held = None;
            patch_part(pages, part, dims, cells, *bucket, room, steps)
        }
        DirectoryChange::Grow {
            attribute,
            interval,
            cells,
            bucket,
        } => {
            let new = refined(dims, *attribute);
            let (attribute, interval) = (*attribute, *interval);
            grow_part(
                pages, part, dims, &new, attribute, interval, cells, *bucket, held, room, steps,
            )
        }
    }
}

/// Writes the parts that the change renews, ascending.
fn write_parts<const K: usize, P: ChangePages, L: Ledger>(
    pages: &mut P,
    dims: &Dims<K>,
    change: &DirectoryChange<K>,
    room: &mut PartRoom,
    steps: &mut Steps<L>,
) -> Result<(), Refusal>
    requires change { IsChangeOf dims.now.intervals change.now }
    requires parts { P.parts pages.old ≡ word_pages (product dims.now.intervals) }
    requires room { length (parts_changed dims.now.intervals change.now) ≤ P.room pages.old }
    ensures written { (D : List ℕ) (after : ℕ → List ℕ)
        → Tells P.ChangePages pages.old dims.now.intervals D
        → AreAfter dims.now.intervals change.now D after
        → OnOk result (P.written pages.new ≡ P.written pages.old
        ++ part_pages after (parts_changed dims.now.intervals change.now)) }
    ensures honest { (D : List ℕ)
        → Tells P.ChangePages pages.old dims.now.intervals D
        → IfErr result IsFault }
    ensures cause { IfErr result
        (IsCause P.ChangePages dims.now.intervals pages.old pages.new room.new.old_page) }
    ensures same { Keeps P.ChangePages pages.old pages.new }
    ensures wrote { OnOk result (WroteParts (parts_changed dims.now.intervals change.now)
        (P.written pages.old) (P.written pages.new)) }
    ensures began { OnErr result
        (BeganFor (map Part (parts_changed dims.now.intervals change.now))
        (P.written pages.old) (P.written pages.new)) }
    ensures ticks { Ticks (page_reads dims.now.intervals change.now) steps.old steps.new result }
{
    let mut held = None;
    for part in 0..parts_after(dims, change) {
        if is_changed(dims, change, part) {
            write_part(pages, part, dims, change, &mut held, room, steps)?;
        }
    }
    Ok(())
}

/// Writes the new pages of a change: those of its buckets, in the order in which they are handed in, then those of the
/// directory parts that it renews, ascending.
pub fn write_change<const K: usize, P: ChangePages, L: Ledger>(
    pages: &mut P,
    buckets: &[NewBucket<'_>],
    dims: &Dims<K>,
    change: &DirectoryChange<K>,
    room: &mut PartRoom,
    steps: &mut Steps<L>,
) -> Result<(), Refusal>
    requires change { IsChangeOf dims.now.intervals change.now }
    requires parts { P.parts pages.old ≡ word_pages (product dims.now.intervals) }
    requires room { length buckets.now + length (parts_changed dims.now.intervals change.now)
        ≤ P.room pages.old }
    ensures written { (shape : Shape) (L : Layout K) (t : Table) (u : Update K) (n : LayoutChange)
        (e : ℕ × BucketBox K)
        → TellsPages P.ChangePages pages.old L t
        → IsChange shape L t u n e
        → dims.now.intervals ≡ cells.dims L.scales
        → change.now ≡ directory_change L e n
        → bucket_pages buckets.now
        ≡ map (new_page L t u n e) (map Bucket (renewed L e n).buckets)
        → OnOk result (P.written pages.new ≡ P.written pages.old ++ new_pages L t u n e) }
    ensures honest { (shape : Shape) (L : Layout K) (t : Table) (u : Update K) (n : LayoutChange)
        (e : ℕ × BucketBox K)
        → TellsPages P.ChangePages pages.old L t
        → IsChange shape L t u n e
        → dims.now.intervals ≡ cells.dims L.scales
        → IfErr result IsFault }
    ensures cause { IfErr result
        (IsCause P.ChangePages dims.now.intervals pages.old pages.new room.new.old_page) }
    ensures same { Keeps P.ChangePages pages.old pages.new }
    ensures wrote { OnOk result (WroteChange buckets.now
        (parts_changed dims.now.intervals change.now)
        (P.written pages.old) (P.written pages.new)) }
    ensures began { OnErr result (BeganFor
        (map (λ b. Bucket b.number) buckets.now
        ++ map Part (parts_changed dims.now.intervals change.now))
        (P.written pages.old) (P.written pages.new)) }
    ensures ticks { Ticks (page_reads dims.now.intervals change.now) steps.old steps.new result }
{
    write_buckets(pages, buckets)?;
    write_parts(pages, dims, change, room, steps)
}
