//! Old directory parts, read and judged.
ghost use Rattle.std.specs.Prelude.{◌≡◌, ◌<◌, ◌*◌, ◌+◌, ℕ, List, Option, Some, OnOk};
ghost use Rattle.grid_types.specs.declared.owner.Owner.{Owner};
ghost use Rattle.grid_types.specs.declared.owner.Owner.TheVariants.{Part};
ghost use Rattle.grid_types.specs.Shapes.{word_pages};
ghost use Rattle.grid_model.specs.Lists.{product};
ghost use Rattle.directory_pages.specs.Spelling.{IsDirectoryPage};
ghost use Rattle.directory_pages.specs.CellBoxes.{cells_on};
ghost use Rattle.shadow_directory.specs.Pages.{Ticks};
ghost use Rattle.shadow_directory.specs.Calls.{ReadsOld};

use crate::ChangePages;
use directory_pages::is_directory_page;
use disk_trait::{DiskFailed, Steps};
use grid_cells::Dims;
use grid_types::{PAGE_BYTES, Refusal};
use std::sync::ledger::Ledger;

/// How many cells the part has.
pub fn cells_on<const K: usize>(dims: &Dims<K>, part: u32) -> u32
    requires { 1000 * part < product dims.now.intervals }
    ensures { result ≡ cells_on dims.now.intervals part }
{
    (dims.cells() - 1000 * part).min(1000)
}

/// Reads an old part, and judges its page.
pub fn read_old<const K: usize, P: ChangePages, L: Ledger>(
    pages: &mut P,
    part: u32,
    dims: &Dims<K>,
    page: &mut [u8; PAGE_BYTES],
    steps: &mut Steps<L>,
) -> Result<(), Refusal>
    requires part { 1000 * part < product dims.now.intervals }
    requires parts { P.parts pages.old ≡ word_pages (product dims.now.intervals) }
    ensures spelled { OnOk result
        (IsDirectoryPage part (cells_on dims.now.intervals part) page.new) }
    ensures bytes { (f : Owner → Option (List ℕ))
        → P.pages pages.old ≡ Some f
        → OnOk result (f (Part part) ≡ Some page.new) }
    ensures reads { ReadsOld P.ChangePages dims.now.intervals
        result pages.old pages.new page.new }
    ensures ticks { Ticks 1 steps.old steps.new result }
{
    match pages.read_part(part, page, steps) {
        Err(DiskFailed) => Err(Refusal::ReadFault),
        Ok(at) => {
            if is_directory_page(page, part, cells_on(dims, part)) {
                Ok(())
            } else {
                Err(Refusal::Damaged { page: at })
            }
        }
    }
}
