//! The parts that a change renews.
ghost use Rattle.std.specs.Prelude.{◌≡◌, ◌<◌, ◌≤◌, ◌*◌, ℕ, length, IfSome, MatchOption};
ghost use Rattle.grid_types.specs.Shapes.{word_pages};
ghost use Rattle.grid_types.specs.declared.sizes.TheConstants.{MOST_CELLS};
ghost use Rattle.grid_model.specs.Lists.{product, is_among};
ghost use Rattle.grid_cells.specs.Dims.{IsDims};
ghost use Rattle.directory_changes.specs.Changes.{grown, dims_after, parts_after, parts_changed, IsChangeOf};
ghost use Rattle.directory_changes.specs.Parts.{IsNextChanged, IsNoneChanged};

use crate::DirectoryChange;
use crate::boxes::holds_cell;
use grid_cells::Dims;

/// How many parts a directory of so many cells has.
fn part_count(cells: u32) -> u32
    ensures { result ≡ word_pages cells }
{
    cells.div_ceil(1000)
}

/// How many cells there are with one more interval in an attribute.
fn cells_grown<const K: usize>(cells: u32, intervals: &[u32; K], attribute: u8) -> u32
    requires lawful { IsDims intervals.now }
    requires count { cells ≡ product intervals.now }
    requires attribute { attribute < length intervals.now }
    requires few { product (grown intervals.now attribute) ≤ MOST_CELLS }
    ensures { result ≡ product (grown intervals.now attribute) }
{
    let old = intervals[attribute as usize];
    cells / old * (old + 1)
}

/// How many parts the directory has after a change.
pub fn parts_after<const K: usize>(dims: &Dims<K>, change: &DirectoryChange<K>) -> u32
    requires { IsChangeOf dims.now.intervals change.now }
    ensures { result ≡ parts_after dims.now.intervals change.now }
{
    match *change {
        DirectoryChange::Grow { attribute, .. } => {
            part_count(cells_grown(dims.cells(), &dims.intervals, attribute))
        }
        _ => part_count(dims.cells()),
    }
}

/// Whether a change renews the part.
pub fn is_changed<const K: usize>(dims: &Dims<K>, change: &DirectoryChange<K>, part: u32) -> bool
    requires change { IsChangeOf dims.now.intervals change.now }
    requires inside { part < parts_after dims.now.intervals change.now }
    ensures { result ≡ is_among (parts_changed dims.now.intervals change.now) part }
{
    match change {
        DirectoryChange::Nothing => false,
        DirectoryChange::Patch { cells, .. } => holds_cell(dims, cells, part),
        DirectoryChange::Grow { .. } => true,
    }
}

/// The least part from this one on that a change renews. Whoever asks again from the part behind it comes to each of them,
/// in ascending order.
pub fn next_changed_part<const K: usize>(
    dims: &Dims<K>,
    change: &DirectoryChange<K>,
    from: u32,
) -> Option<u32>
    requires { IsChangeOf dims.now.intervals change.now }
    ensures there { IfSome result
        (λ part. 1000 * part < product (dims_after dims.now.intervals change.now)) }
    ensures next { MatchOption result
        (IsNoneChanged dims.now.intervals change.now from)
        (IsNextChanged dims.now.intervals change.now from) }
{
    for part in from..parts_after(dims, change) {
        if is_changed(dims, change, part) {
            return Some(part);
        }
    }
    None
}
