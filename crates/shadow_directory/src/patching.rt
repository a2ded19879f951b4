//! Parts of a directory whose cells in a box get another bucket.
ghost use Rattle.std.specs.Prelude.{◌≡◌, ◌<◌, ◌≤◌, ◌*◌};
ghost use Rattle.grid_types.specs.Shapes.{word_pages};
ghost use Rattle.grid_model.specs.Lists.{product};
ghost use Rattle.directory_changes.specs.declared.change.DirectoryChange.TheVariants.{Patch};
ghost use Rattle.shadow_directory.specs.Pages.{Ticks};
ghost use Rattle.shadow_directory.specs.WrittenParts.{WritesPart};

use crate::reading::read_old;
use crate::writing::write_page;
use crate::{ChangePages, PartRoom};
use directory_pages::patch_cell_box;
use disk_trait::Steps;
use grid_cells::Dims;
use grid_types::{CellBox, Owner, Refusal};
use std::sync::ledger::Ledger;

/// Writes a part in which the cells of the box have another bucket.
pub fn patch_part<const K: usize, P: ChangePages, L: Ledger>(
    pages: &mut P,
    part: u32,
    dims: &Dims<K>,
    cells: &CellBox<K>,
    bucket: u32,
    room: &mut PartRoom,
    steps: &mut Steps<L>,
) -> Result<(), Refusal>
    requires part { 1000 * part < product dims.now.intervals }
    requires parts { P.parts pages.old ≡ word_pages (product dims.now.intervals) }
    requires room { 1 ≤ P.room pages.old }
    ensures writes { WritesPart P.ChangePages dims.now.intervals (Patch cells.now bucket) part
        result pages.old pages.new room.new.old_page }
    ensures ticks { Ticks 1 steps.old steps.new result }
{
    read_old(pages, part, dims, &mut room.old_page, steps)?;
    patch_cell_box(&mut room.old_page, part, dims, cells, bucket);
    write_page(pages, Owner::Part(part), &room.old_page)
}
