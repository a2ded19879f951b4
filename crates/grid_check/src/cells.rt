//! The numbers that the cells of a directory name, judged in the order of their parts.
ghost use Rattle.std.specs.Prelude.{◌≡◌, ◌<◌, ◌≤◌, ◌+◌, ◌*◌, ◌↔◌, ℕ, List, None, IsTrue, length, slice_index};
ghost use Rattle.grid_types.specs.Shapes.{word_pages};
ghost use Rattle.grid_model.specs.Lists.{product};
ghost use Rattle.grid_check.specs.Reads.{AreNamed, AreNumbered};
ghost use Rattle.grid_check.specs.Rules.{IsNumbered, JudgesCells};

use crate::numbers::is_numbered;
use grid_cells::Dims;
use grid_types::{Geometry, PageList};

/// Whether each cell of a part names a number that a bucket has.
fn are_numbered(table: &PageList, names: &[u32], part: u32) -> bool
    requires some { 1000 * part < length names.now }
    requires few { length names.now ≤ 1000000 }
    ensures { IsTrue result ↔ AreNumbered table.now.items names.now part }
{
    let first = 1000 * part as usize;
    let count = (names.len() - first).min(1000);
    for i in 0..count {
        if !is_numbered(table, names[first + i]) {
            return false;
        }
    }
    true
}

/// The page of the first directory part with a cell that names a number that no bucket has, or none.
pub fn first_bad_cell<const K: usize>(
    geometry: &Geometry,
    dims: &Dims<K>,
    parts: &PageList,
    table: &PageList,
    names: &[u32],
) -> Option<u32>
    requires count { length parts.now.items ≡ word_pages (product dims.now.intervals) }
    requires pages { (p : ℕ) → p < length parts.now.items
        → slice_index parts.now.items p < geometry.now.shape.pages }
    requires cells { length names.now ≡ product dims.now.intervals }
    ensures judged { (image : List ℕ)
        → AreNamed geometry.now.shape image parts.now.items names.now (product dims.now.intervals)
        → JudgesCells geometry.now.shape image
        dims.now.intervals parts.now.items table.now.items result }
    ensures numbered { result ≡ None
        → (at : ℕ)
        → at < length names.now
        → IsNumbered table.now.items (slice_index names.now at) }
{
    for part in 0..(dims.cells() + 999) / 1000 {
        if !are_numbered(table, names, part) {
            return Some(geometry.data_page(parts.list()[part as usize]));
        }
    }
    None
}
