ghost use Rattle.std.specs.Prelude.{◌<◌, ◌*◌};
ghost use Rattle.grid_model.specs.Lists.{product};

use super::*;
use grid_cells::Dims;
use grid_types::CellBox;
use std::test::*;

/// Whether each interval of the cell is one of the box.
fn lies_between<const K: usize>(cells: &CellBox<K>, cell: &[u32; K]) -> bool {
    for a in 0..K {
        if cell[a] < cells.lo[a] {
            return false;
        }
        if cell[a] > cells.hi[a] {
            return false;
        }
    }
    true
}

/// Whether the patch of a box changes those cells of a part that lie in the box, and no other.
fn is_part_patched<const K: usize>(dims: &Dims<K>, cells: &CellBox<K>, part: u32) -> bool
    requires { 1000 * part < product dims.now.intervals }
{
    let count = (dims.cells() - 1000 * part).min(1000);
    let mut page = [9; 4096];
    encode(part, &[1; 1000][..count as usize], &mut page);
    patch_cell_box(&mut page, part, dims, cells, 77);
    for i in 0..count {
        let is_in = lies_between(cells, &dims.cell(1000 * part + i));
        if (bucket_at(&page, i) == 77) != is_in {
            return false;
        }
    }
    is_directory_page(&page, part, count)
}

/// Whether the patch of a box changes its cells on each part, and no other.
fn is_patched<const K: usize>(dims: &Dims<K>, cells: &CellBox<K>) -> bool {
    for part in 0..dims.cells().div_ceil(1000) {
        if !is_part_patched(dims, cells, part) {
            return false;
        }
    }
    true
}

/// The box between two corners.
fn between<const K: usize>(lo: [u32; K], hi: [u32; K]) -> CellBox<K> {
    CellBox { lo, hi }
}

#[test]
#[tactic(auto, using(grid_cells::proofs::Literals::literal))]
fn cell_boxes_are_patched(rt: HostRuntime) -> Result<(), Fail> {
    let intervals = [1001];
    assert!(rt; is_patched(&Dims { intervals }, &between([998], [1000])));
    let intervals = [50, 50];
    assert!(rt; is_patched(&Dims { intervals }, &between([10, 5], [45, 20])));
    assert!(rt; is_patched(&Dims { intervals }, &between([39, 49], [40, 0])));
    let intervals = [11, 12, 13];
    assert!(rt; is_patched(&Dims { intervals }, &between([2, 3, 4], [9, 10, 12])));
    let intervals = [3, 4, 5, 6];
    assert!(rt; is_patched(&Dims { intervals }, &between([1, 0, 2, 3], [1, 3, 4, 5])));
    Ok(())
}
