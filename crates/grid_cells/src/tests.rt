ghost use Rattle.grid_model.specs.Cells.{InCellBox};
ghost use Rattle.grid_model.specs.ScaleLaws.{IsCell};

use super::*;
use grid_types::CellBox;
use std::test::*;

/// How many cells a walk through a box comes to, if it ends with the highest.
fn walked<const K: usize>(dims: &Dims<K>, cells: &CellBox<K>) -> Option<u32>
    requires highest { IsCell dims.now.intervals cells.now.hi }
    requires inside { InCellBox cells.now cells.now.lo }
{
    let mut cell = cells.lo;
    for i in 0..1_000_000 {
        match dims.next(cells, &cell) {
            Some(next) => cell = next,
            None if cell == cells.hi => return Some(i + 1),
            None => return None,
        }
    }
    None
}

#[test]
#[tactic(auto, using(crate::proofs::Literals::literal))]
fn walks_come_to_each_cell(rt: HostRuntime) -> Result<(), Fail> {
    let (intervals, lo, hi) = ([7], [2], [5]);
    assert_eq!(rt; walked(&Dims { intervals }, &CellBox { lo, hi }), Some(4));
    let (intervals, lo, hi) = ([3, 4], [0, 1], [2, 2]);
    assert_eq!(rt; walked(&Dims { intervals }, &CellBox { lo, hi }), Some(6));
    let (intervals, lo, hi) = ([4, 3, 5], [1, 0, 2], [3, 2, 4]);
    assert_eq!(rt; walked(&Dims { intervals }, &CellBox { lo, hi }), Some(27));
    let (intervals, lo, hi) = ([2, 3, 4, 5], [0, 0, 0, 0], [1, 2, 3, 4]);
    assert_eq!(rt; walked(&Dims { intervals }, &CellBox { lo, hi }), Some(120));
    let (intervals, lo, hi) = ([5, 5, 5, 5], [2, 4, 0, 3], [2, 4, 0, 3]);
    assert_eq!(rt; walked(&Dims { intervals }, &CellBox { lo, hi }), Some(1));
    Ok(())
}

#[test]
#[tactic(auto, using(crate::proofs::Literals::literal))]
fn cells_have_indices(rt: HostRuntime) -> Result<(), Fail> {
    let intervals = [3, 4];
    let few = Dims { intervals };
    assert_eq!(rt; few.cells(), 12);
    assert_eq!(rt; few.index(&[2, 1]), 9);
    assert_eq!(rt; few.cell(9), [2, 1]);
    let intervals = [100, 100, 100];
    let many = Dims { intervals };
    assert_eq!(rt; many.cells(), 1_000_000);
    assert_eq!(rt; many.cell(999_998), [99, 99, 98]);
    assert_eq!(rt; many.index(&[99, 98, 99]), 999_899);
    Ok(())
}

#[test]
fn a_split_interval_was_one(rt: HostRuntime) -> Result<(), Fail> {
    let cases = [
        ([3, 2], 0, 1, [2, 2]),
        ([2, 2], 0, 1, [1, 2]),
        ([1, 2], 0, 1, [1, 2]),
        ([1, 2], 1, 0, [1, 1]),
    ];
    for (cell, a, i, image) in cases {
        assert_eq!(rt; image_of(&cell, a, i), image);
    }
    Ok(())
}
