//! How many pages a change needs.
ghost use Rattle.std.specs.Prelude.{◌≡◌, ◌≤◌, ◌+◌, ℕ, length, if◌then◌else◌};
ghost use Rattle.grid_types.specs.declared.layout_change.LayoutChange.{LayoutChange};
ghost use Rattle.grid_types.specs.declared.shape.Shape.{Shape};
ghost use Rattle.grid_types.specs.declared.update.Update.{Update};
ghost use Rattle.grid_model.specs.Cells as cells;
ghost use Rattle.grid_model.specs.Tables.{Table};
ghost use Rattle.grid_model.specs.Layouts.{BucketBox, Layout};
ghost use Rattle.grid_model.specs.Lone as lone;
ghost use Rattle.grid_model.specs.Lone.{renewed};
ghost use Rattle.history_pages.specs.PageLaws.{IsChange};
ghost use Rattle.directory_changes.specs.Changes.{parts_of_box, parts_changed, directory_change, HasCorners, IsChangeOf};

use crate::DirectoryChange;
use crate::boxes::holds_cell;
use crate::parts::parts_after;
use grid_cells::Dims;
use grid_types::CellBox;

/// How many parts hold a cell of the box.
fn count_parts<const K: usize>(dims: &Dims<K>, cells: &CellBox<K>) -> u32
    requires { HasCorners dims.now.intervals cells.now }
    ensures { result ≡ length (parts_of_box dims.now.intervals cells.now) }
{
    let mut count = 0;
    for part in 0..dims.cells().div_ceil(1000) {
        if holds_cell(dims, cells, part) {
            count += 1;
        }
    }
    count
}

/// How many parts a change renews.
pub fn count_changed_parts<const K: usize>(dims: &Dims<K>, change: &DirectoryChange<K>) -> u32
    requires { IsChangeOf dims.now.intervals change.now }
    ensures count { result ≡ length (parts_changed dims.now.intervals change.now) }
    ensures few { result ≤ 1000 }
{
    match change {
        DirectoryChange::Nothing => 0,
        DirectoryChange::Patch { cells, .. } => count_parts(dims, cells),
        DirectoryChange::Grow { .. } => parts_after(dims, change),
    }
}

/// The free pages that a change needs, with as many new pages of buckets. An update that puts a record has one to spare.
pub fn need<const K: usize>(
    buckets: u32,
    dims: &Dims<K>,
    change: &DirectoryChange<K>,
    spare: bool,
) -> u32
    requires few { buckets ≤ 2 }
    requires change { IsChangeOf dims.now.intervals change.now }
    ensures value { result ≡ buckets + length (parts_changed dims.now.intervals change.now)
        + (if spare then 1 else 0) }
    ensures need { (shape : Shape) (L : Layout K) (t : Table) (u : Update K) (n : LayoutChange)
        (e : ℕ × BucketBox K)
        → IsChange shape L t u n e
        → dims.now.intervals ≡ cells.dims L.scales
        → change.now ≡ directory_change L e n
        → buckets ≡ length (renewed L e n).buckets
        → (if spare then 1 else 0) ≡ lone.spare u
        → result ≡ lone.need L e u n }
{
    let pages = buckets + count_changed_parts(dims, change);
    if spare { pages + 1 } else { pages }
}
