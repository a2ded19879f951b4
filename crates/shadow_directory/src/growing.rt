//! Parts of a refined directory.
ghost use Rattle.std.specs.Prelude.{◌≡◌, ◌<◌, ◌≤◌, ◌*◌, ◌∷◌, [], ℕ, List, Some, slice_index, OnOk};
ghost use Rattle.grid_types.specs.Shapes.{word_pages};
ghost use Rattle.grid_model.specs.Lists.{product};
ghost use Rattle.directory_changes.specs.Changes.{grown, IsGrowth};
ghost use Rattle.directory_changes.specs.declared.change.DirectoryChange.TheVariants.{Grow};
ghost use Rattle.shadow_directory.specs.Pages.{Ticks};
ghost use Rattle.shadow_directory.specs.Calls.{ReadsOld, Tells, Holds};
ghost use Rattle.shadow_directory.specs.Images.{parts_needed};
ghost use Rattle.shadow_directory.specs.Reads.{sources, readings, last_held};
ghost use Rattle.shadow_directory.specs.WrittenParts.{WritesPart};

use crate::images::{find_images, next_needed, take_buckets};
use crate::reading::read_old;
use crate::writing::write_page;
use crate::{ChangePages, PartRoom};
use directory_pages::{encode, patch_cell_box};
use disk_trait::Steps;
use grid_cells::Dims;
use grid_types::{CellBox, Owner, PAGE_BYTES, Refusal};
use std::sync::ledger::Ledger;

/// Has the page of an old part in the buffer: it is there, or it is read.
fn hold<const K: usize, P: ChangePages, L: Ledger>(
    pages: &mut P,
    part: u32,
    dims: &Dims<K>,
    held: &mut Option<u32>,
    page: &mut [u8; PAGE_BYTES],
    steps: &mut Steps<L>,
) -> Result<(), Refusal>
    requires part { 1000 * part < product dims.now.intervals }
    requires parts { P.parts pages.old ≡ word_pages (product dims.now.intervals) }
    requires held { Holds P.ChangePages dims.now.intervals pages.old held.old page.old }
    ensures there { OnOk result (held.new ≡ Some part) }
    ensures held { Holds P.ChangePages dims.now.intervals pages.new held.new page.new }
    ensures reads { ReadsOld P.ChangePages dims.now.intervals
        result pages.old pages.new page.new }
    ensures ticks { Ticks (readings held.old (part ∷ [])) steps.old steps.new result }
{
    if *held == Some(part) {
        return Ok(());
    }
    *held = None;
    read_old(pages, part, dims, page, steps)?;
    *held = Some(part);
    Ok(())
}

/// Gathers the buckets of the cells that had the first `count` of these indices: each old part is held once, ascending.
fn gather<const K: usize, P: ChangePages, L: Ledger>(
    pages: &mut P,
    dims: &Dims<K>,
    images: &[u32; 1000],
    count: usize,
    held: &mut Option<u32>,
    page: &mut [u8; PAGE_BYTES],
    buckets: &mut [u32; 1000],
    steps: &mut Steps<L>,
) -> Result<(), Refusal>
    requires count { count ≤ 1000 }
    requires images { (k : ℕ) → k < count → slice_index images.now k < product dims.now.intervals }
    requires parts { P.parts pages.old ≡ word_pages (product dims.now.intervals) }
    requires held { Holds P.ChangePages dims.now.intervals pages.old held.old page.old }
    ensures gathered { (D : List ℕ)
        → Tells P.ChangePages pages.old dims.now.intervals D
        → OnOk result ((k : ℕ)
        → k < count
        → slice_index buckets.new k ≡ slice_index D (slice_index images.now k)) }
    ensures held { Holds P.ChangePages dims.now.intervals pages.new held.new page.new }
    ensures reads { ReadsOld P.ChangePages dims.now.intervals
        result pages.old pages.new page.new }
    ensures last { OnOk result (held.new ≡ last_held held.old
        (parts_needed images.now count (word_pages (product dims.now.intervals)))) }
    ensures ticks { Ticks (readings held.old
        (parts_needed images.now count (word_pages (product dims.now.intervals))))
        steps.old steps.new result }
{
    let mut from = 0;
    while let Some(part) = next_needed(images, count, from) {
        hold(pages, part, dims, held, page, steps)?;
        take_buckets(images, count, part, page, buckets);
        from = part + 1;
    }
    Ok(())
}

/// Writes a part of the refined directory: each cell has the bucket of its image, and the cells of the box have another one.
/// Each old part that has an image is read once, in ascending order, but the one that the buffer holds already; the part that
/// it holds afterwards is handed on.
pub fn grow_part<const K: usize, P: ChangePages, L: Ledger>(
    pages: &mut P,
    part: u32,
    dims: &Dims<K>,
    refined: &Dims<K>,
    attribute: u8,
    interval: u32,
    cells: &CellBox<K>,
    bucket: u32,
    held: &mut Option<u32>,
    room: &mut PartRoom,
    steps: &mut Steps<L>,
) -> Result<(), Refusal>
    requires part { 1000 * part < product refined.now.intervals }
    requires growth { IsGrowth dims.now.intervals attribute interval cells.now }
    requires refined { refined.now.intervals ≡ grown dims.now.intervals attribute }
    requires parts { P.parts pages.old ≡ word_pages (product dims.now.intervals) }
    requires room { 1 ≤ P.room pages.old }
    requires held { Holds P.ChangePages dims.now.intervals pages.old held.old room.old.old_page }
    ensures writes { WritesPart P.ChangePages dims.now.intervals
        (Grow attribute interval cells.now bucket) part
        result pages.old pages.new room.new.old_page }
    ensures held { Holds P.ChangePages dims.now.intervals pages.new held.new room.new.old_page }
    ensures last { OnOk result (held.new
        ≡ last_held held.old (sources dims.now.intervals attribute interval part)) }
    ensures ticks { Ticks (readings held.old (sources dims.now.intervals attribute interval part))
        steps.old steps.new result }
{
    let mut images = [0; 1000];
    let mut buckets = [0; 1000];
    let count = find_images(dims, refined, part, attribute, interval, &mut images);
    let old_page = &mut room.old_page;
    gather(
        pages,
        dims,
        &images,
        count,
        held,
        old_page,
        &mut buckets,
        steps,
    )?;
    encode(part, &buckets[..count], &mut room.page);
    patch_cell_box(&mut room.page, part, refined, cells, bucket);
    write_page(pages, Owner::Part(part), &room.page)
}
