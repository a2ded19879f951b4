//! The cells of regions, judged by the numbers that cells name.
ghost use Rattle.std.specs.Prelude.{◌≡◌, ◌≢◌, ◌<◌, ◌≤◌, ◌↔◌, ℕ, List, false, Some, IsTrue, length, slice_index};
ghost use Rattle.grid_types.specs.declared.sizes.TheConstants.{MOST_ATTRIBUTES};
ghost use Rattle.grid_types.specs.Regions.{IsRegion, Within};
ghost use Rattle.grid_model.specs.Lawful.{nowhere};
ghost use Rattle.grid_model.specs.Lists.{product};
ghost use Rattle.grid_model.specs.Cells.{dims as dims_of, cell_index, InCellBox};
ghost use Rattle.grid_model.specs.ScaleLaws.{IsCell};
ghost use Rattle.linear_scales.specs.Limited.{scales_of};
ghost use Rattle.directory_changes.specs.Changes.{cell_box};
ghost use Rattle.grid_check.specs.Covers.{region_under, AllName, IsLeastStray, lower_one};
ghost use Rattle.grid_check.specs.Reads.{AreNamed, AreHeld};
ghost use Rattle.grid_check.specs.Rules.{IsNumbered, JudgesCovers};

use crate::Holding;
use crate::numbers::is_numbered;
use grid_cells::Dims;
use grid_types::{CellBox, Geometry, Key, PageList, Region};
use linear_scales::Scales;

/// Whether each interval lies between the bounds of its attribute.
fn all_between<const K: usize>(lo: &[u32; K], cell: &[u32; K], hi: &[u32; K]) -> bool
    ensures within { IsTrue result ↔ Within lo.now hi.now cell.now }
    ensures count { length cell.now ≡ length lo.now }
{
    for a in 0..K {
        if cell[a] < lo[a] || hi[a] < cell[a] {
            return false;
        }
    }
    true
}

/// Whether the cell lies in the box.
fn is_in_cell_box<const K: usize>(cells: &CellBox<K>, cell: &[u32; K]) -> bool
    ensures { IsTrue result ↔ InCellBox cells.now cell.now }
{
    all_between(&cells.lo, cell, &cells.hi)
}

/// The box of the cells of a region.
fn cells_of<const K: usize>(scales: &Scales<K>, region: &Region<K>) -> CellBox<K>
    requires few { K ≤ MOST_ATTRIBUTES }
    ensures cells { result ≡ cell_box (scales_of scales.now) region.now }
    ensures highest { IsCell (dims_of (scales_of scales.now)) result.hi }
    ensures lowest { IsCell (dims_of (scales_of scales.now)) result.lo }
    ensures some { IsRegion K region.now → InCellBox result result.lo }
    ensures count { length (scales_of scales.now) ≡ K }
{
    let lo = Key { numbers: region.lo };
    let hi = Key { numbers: region.hi };
    CellBox {
        lo: scales.cell_of(&lo),
        hi: scales.cell_of(&hi),
    }
}

/// Whether each cell of the box names the number.
fn all_name<const K: usize>(dims: &Dims<K>, names: &[u32], cells: &CellBox<K>, number: u32) -> bool
    requires count { length names.now ≡ product dims.now.intervals }
    requires few { K ≤ MOST_ATTRIBUTES }
    requires highest { IsCell dims.now.intervals cells.now.hi }
    requires lowest { IsCell dims.now.intervals cells.now.lo }
    requires some { InCellBox cells.now cells.now.lo }
    ensures { IsTrue result
        ↔ ((cell : List ℕ)
        → InCellBox cells.now cell
        → slice_index names.now (cell_index dims.now.intervals cell) ≡ number) }
{
    let mut cell = cells.lo;
    'cells: loop {
        if names[dims.index(&cell) as usize] != number {
            return false;
        }
        match dims.next(cells, &cell) {
            Some(next) => cell = next,
            None => return true,
        }
    }
}

/// Whether each cell of the region names the number.
fn region_names<const K: usize>(
    dims: &Dims<K>,
    scales: &Scales<K>,
    names: &[u32],
    region: &Region<K>,
    number: u32,
) -> bool
    requires few { K ≤ MOST_ATTRIBUTES }
    requires dims { dims.now.intervals ≡ dims_of (scales_of scales.now) }
    requires count { length names.now ≡ product dims.now.intervals }
    requires lawful { IsRegion K region.now }
    ensures count { length (scales_of scales.now) ≡ K }
    ensures named { IsTrue result
        ↔ AllName (scales_of scales.now) (λ at. slice_index names.now at) region.now number }
{
    all_name(dims, names, &cells_of(scales, region), number)
}

/// Whether the cell is one of the region.
fn is_cell_of<const K: usize>(scales: &Scales<K>, region: &Region<K>, cell: &[u32; K]) -> bool
    requires few { K ≤ MOST_ATTRIBUTES }
    ensures { IsTrue result
        ↔ InCellBox (cell_box (scales_of scales.now) region.now) cell.now }
{
    is_in_cell_box(&cells_of(scales, region), cell)
}

/// The least number yet that a cell names outside of its region, with one cell more that names this number, inside of its
/// region or not.
fn least_with(least: Option<u32>, number: u32, inside: bool) -> Option<u32>
    ensures stays { IsTrue inside → result ≡ least }
    ensures falls { inside ≡ false → result ≡ lower_one least number }
{
    if inside {
        return least;
    }
    match least {
        None => Some(number),
        Some(other) => Some(other.min(number)),
    }
}

/// The least number that a cell names outside of the number's region, or none.
fn least_stray<const K: usize>(
    dims: &Dims<K>,
    scales: &Scales<K>,
    names: &[u32],
    holdings: &[Holding<K>],
) -> Option<u32>
    requires few { K ≤ MOST_ATTRIBUTES }
    requires dims { dims.now.intervals ≡ dims_of (scales_of scales.now) }
    requires count { length names.now ≡ product dims.now.intervals }
    requires named { (at : ℕ)
        → at < length names.now
        → slice_index names.now at < length holdings.now }
    ensures { IsLeastStray (scales_of scales.now) (λ at. slice_index names.now at)
        (region_under holdings.now) (product dims.now.intervals) result }
{
    let mut least = None;
    for at in 0..dims.cells() {
        let number = names[at as usize];
        let region = &holdings[number as usize].region;
        let inside = is_cell_of(scales, region, &dims.cell(at));
        least = least_with(least, number, inside);
    }
    least
}

/// Whether a number that may be there is this one.
fn is_one(least: Option<u32>, number: u32) -> bool
    ensures { IsTrue result ↔ (least ≡ Some number) }
{
    match least {
        Some(other) => other == number,
        None => false,
    }
}

/// The page of the first bucket number that is not named by exactly the cells of its bucket's region, or none.
pub fn first_bad_cover<const K: usize>(
    geometry: &Geometry,
    dims: &Dims<K>,
    scales: &Scales<K>,
    table: &PageList,
    names: &[u32],
    holdings: &[Holding<K>],
) -> Option<u32>
    requires count { length table.now.items ≡ geometry.now.shape.pages }
    requires pages { (n : ℕ) → n < length table.now.items
        → slice_index table.now.items n ≢ nowhere
        → slice_index table.now.items n < geometry.now.shape.pages }
    requires few { K ≤ MOST_ATTRIBUTES }
    requires dims { dims.now.intervals ≡ dims_of (scales_of scales.now) }
    requires cells { length names.now ≡ product dims.now.intervals }
    requires named { (at : ℕ)
        → at < length names.now
        → IsNumbered table.now.items (slice_index names.now at) }
    requires room { length holdings.now ≡ length table.now.items }
    ensures judged { (image listed : List ℕ)
        → AreNamed geometry.now.shape image listed names.now (product dims.now.intervals)
        → AreHeld geometry.now.shape image table.now.items holdings.now (length table.now.items)
        → JudgesCovers K geometry.now.shape image
        (scales_of scales.now) listed table.now.items result }
{
    let stray = least_stray(dims, scales, names, holdings);
    for number in 0..geometry.shape.pages {
        if !is_numbered(table, number) {
            continue;
        }
        let page = geometry.data_page(table.list()[number as usize]);
        if is_one(stray, number) {
            return Some(page);
        }
        let region = &holdings[number as usize].region;
        if !region_names(dims, scales, names, region, number) {
            return Some(page);
        }
    }
    None
}
