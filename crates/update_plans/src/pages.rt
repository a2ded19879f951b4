//! How many pages a plan makes.
ghost use Rattle.std.specs.Prelude.{◌≡◌, ◌≤◌, ◌+◌, ◌<◌, ◌^◌, length, IsTrue};
ghost use Rattle.grid_types.specs.declared.shape.Shape.{Shape};
ghost use Rattle.grid_types.specs.Shapes.{is_shape};
ghost use Rattle.grid_model.specs.Cells.{cells, dims};
ghost use Rattle.linear_scales.specs.Limited.{scales_of};
ghost use Rattle.grid_cells.specs.Dims.{IsDims};
ghost use Rattle.directory_changes.specs.Changes.{parts_changed, IsChangeOf};

use directory_changes::{DirectoryChange, count_changed_parts};
use grid_cells::Dims;
use linear_scales::Scales;

/// How many owners get a new page by a change of the directory and so many buckets.
pub fn pages_of<const K: usize>(
    buckets: u32,
    scales: &Scales<K>,
    directory: &DirectoryChange<K>,
) -> u32
    requires few { buckets ≤ 2 }
    requires dims { IsDims (dims (scales_of scales.now)) }
    requires change { IsChangeOf (dims (scales_of scales.now)) directory.now }
    ensures value { result
        ≡ buckets + length (parts_changed (dims (scales_of scales.now)) directory.now) }
    ensures some { result ≤ 1002 }
{
    let dims = Dims {
        intervals: scales.dims(),
    };
    buckets + count_changed_parts(&dims, directory)
}
