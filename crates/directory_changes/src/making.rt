//! The directory's change, from the layout's.
ghost use Rattle.std.specs.Prelude.{◌≡◌, ◌<◌, ◌≤◌, ℕ, min, max};
ghost use Rattle.std.specs.Option.{unwrap_or};
ghost use Rattle.grid_types.specs.declared.layout_change.LayoutChange.TheVariants as note;
ghost use Rattle.grid_types.specs.declared.sizes.TheConstants.{MOST_CELLS};
ghost use Rattle.grid_model.specs.Cells.{dims, cells};
ghost use Rattle.grid_model.specs.Layouts.{BucketBox, Layout, box};
ghost use Rattle.grid_model.specs.Notes.{right_of, scales_after};
ghost use Rattle.linear_scales.specs.Limited.{scales_of};
ghost use Rattle.directory_changes.specs.Changes.{cell_box, directory_change, HasCorners, IsChangeOf};
ghost use Rattle.directory_changes.specs.Fresh.{IsFreshFor};

use crate::DirectoryChange;
use grid_types::{CellBox, Cut, Key, Region};
use linear_scales::Scales;

/// The box of the cells of a region.
fn cell_box<const K: usize>(scales: &Scales<K>, region: &Region<K>) -> CellBox<K>
    ensures value { result ≡ cell_box (scales_of scales.now) region.now }
    ensures corners { HasCorners (dims (scales_of scales.now)) result }
{
    CellBox {
        lo: scales.cell_of(&Key { numbers: region.lo }),
        hi: scales.cell_of(&Key { numbers: region.hi }),
    }
}

/// What a cut does to the directory. The scales are those before it and after it, and the region is the right part's.
pub fn change_of_cut<const K: usize>(
    before: &Scales<K>,
    after: &Scales<K>,
    right_region: &Region<K>,
    cut: Cut,
    right: u32,
) -> DirectoryChange<K>
    requires { cut.attribute < K }
    ensures change { (L : Layout K) (e : ℕ × BucketBox K)
        → L.scales ≡ scales_of before.now
        → scales_of after.now ≡ scales_after L.scales cut
        → right_region.now ≡ (right_of e.1 cut).region
        → result ≡ directory_change L e (note.Cut cut right) }
    ensures fits { scales_of after.now ≡ scales_after (scales_of before.now) cut
        → IsFreshFor (scales_of before.now) cut
        → cells (scales_of after.now) ≤ MOST_CELLS
        → IsChangeOf (dims (scales_of before.now)) result }
{
    let cells = cell_box(after, right_region);
    if cut.fresh {
        let scale = before.scale(cut.attribute as usize);
        return DirectoryChange::Grow {
            attribute: cut.attribute,
            interval: scale.interval(cut.value),
            cells,
            bucket: right,
        };
    }
    DirectoryChange::Patch {
        cells,
        bucket: right,
    }
}

/// What a merge does to the directory: the cells of the box that vanishes get the number of the other one.
pub fn change_of_merge<const K: usize>(
    scales: &Scales<K>,
    vanishing: &Region<K>,
    survivor: u32,
) -> DirectoryChange<K>
    ensures change { (L : Layout K) (e : ℕ × BucketBox K) (m : ℕ)
        → L.scales ≡ scales_of scales.now
        → vanishing.now ≡ (unwrap_or (box L (max e.0 m)) e.1).region
        → survivor ≡ min e.0 m
        → result ≡ directory_change L e (note.Merge m) }
    ensures fits { IsChangeOf (dims (scales_of scales.now)) result }
{
    DirectoryChange::Patch {
        cells: cell_box(scales, vanishing),
        bucket: survivor,
    }
}
