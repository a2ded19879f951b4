//! The cells of a box that lie on a part.
ghost use Rattle.std.specs.Prelude.{◌≡◌, ◌<◌, ◌*◌, ◌%◌, ◌↔◌, ℕ, List, length, slice_index, IsTrue};
ghost use Rattle.grid_types.specs.Regions.{Within};
ghost use Rattle.grid_model.specs.Lists.{product};
ghost use Rattle.grid_model.specs.Cells.{cell_index, InCellBox};
ghost use Rattle.directory_pages.specs.Spelling.{SpellsPart, bucket_in};
ghost use Rattle.directory_pages.specs.CellBoxes.{cells_on, LiesOnPart, IsPatched, IsBesideCellBox};

use crate::set_bucket;
use grid_cells::Dims;
use grid_types::CellBox;

/// Whether each interval lies between the bounds of its attribute.
fn all_between<const K: usize>(lo: &[u32; K], cell: &[u32; K], hi: &[u32; K]) -> bool
    ensures within { IsTrue result ↔ Within lo.now hi.now cell.now }
    ensures count { length cell.now ≡ length lo.now }
{
    for a in 0..K {
        if cell[a] < lo[a] || hi[a] < cell[a] {
            return false;
        }
    }
    true
}

/// Whether the cell lies in the box.
fn is_in_cell_box<const K: usize>(cells: &CellBox<K>, cell: &[u32; K]) -> bool
    ensures { IsTrue result ↔ InCellBox cells.now cell.now }
{
    all_between(&cells.lo, cell, &cells.hi)
}

/// How many cells the part has.
fn cells_on<const K: usize>(dims: &Dims<K>, part: u32) -> u32
    requires { 1000 * part < product dims.now.intervals }
    ensures { result ≡ cells_on dims.now.intervals part }
{
    (dims.cells() - 1000 * part).min(1000)
}

/// Gives each cell of the box that lies on this part the bucket, and changes no other byte of its page.
pub fn patch_cell_box<const K: usize>(
    page: &mut [u8; 4096],
    part: u32,
    dims: &Dims<K>,
    cells: &CellBox<K>,
    bucket: u32,
)
    requires { 1000 * part < product dims.now.intervals }
    ensures named { (cell : List ℕ)
        → LiesOnPart dims.now.intervals cells.now part cell
        → bucket_in (cell_index dims.now.intervals cell % 1000) page.new ≡ bucket }
    ensures others { (k : ℕ)
        → IsBesideCellBox dims.now.intervals cells.now part k
        → slice_index page.new k ≡ slice_index page.old k }
    ensures cells { (before after : List ℕ)
        → SpellsPart part page.old before
        → length before ≡ cells_on dims.now.intervals part
        → IsPatched dims.now.intervals cells.now part bucket before after
        → SpellsPart part page.new after }
{
    for i in 0..cells_on(dims, part) {
        if is_in_cell_box(cells, &dims.cell(1000 * part + i)) {
            set_bucket(page, i, bucket);
        }
    }
}
