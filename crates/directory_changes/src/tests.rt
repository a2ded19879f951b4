ghost use Rattle.directory_changes.specs.Changes.{IsChangeOf};

use super::*;
use grid_cells::Dims;
use grid_types::{CellBox, Cut, Region};
use linear_scales::Scales;
use std::test::*;

/// Whether a change renews exactly these parts, ascending.
fn renews<const K: usize>(dims: &Dims<K>, change: &DirectoryChange<K>, parts: &[u32]) -> bool
    requires { IsChangeOf dims.now.intervals change.now }
{
    let mut from: u32 = 0;
    for part in parts {
        if next_changed_part(dims, change, from) != Some(*part) {
            return false;
        }
        from = part.wrapping_add(1);
    }
    let count = count_changed_parts(dims, change);
    next_changed_part(dims, change, from).is_none()
        && count as usize == parts.len()
        && need(1, dims, change, true) == count + 2
}

#[test]
#[tactic(auto, using(grid_cells::proofs::Literals::literal))]
fn parts_of_boxes_are_found(rt: HostRuntime) -> Result<(), Fail> {
    let intervals = [2500];
    let (lo, hi) = ([999], [1000]);
    let cells = CellBox { lo, hi };
    let change = DirectoryChange::Patch { cells, bucket: 7 };
    assert!(rt; renews(&Dims { intervals }, &change, &[0, 1]));
    let intervals = [50, 50];
    let (lo, hi) = ([39, 49], [45, 49]);
    let cells = CellBox { lo, hi };
    let change = DirectoryChange::Patch { cells, bucket: 7 };
    assert!(rt; renews(&Dims { intervals }, &change, &[1, 2]));
    let (lo, hi) = ([39, 49], [45, 3]);
    let cells = CellBox { lo, hi };
    let change = DirectoryChange::Patch { cells, bucket: 7 };
    assert!(rt; renews(&Dims { intervals }, &change, &[]));
    let intervals = [5, 30, 40];
    let (lo, hi) = ([1, 7, 20], [3, 9, 20]);
    let cells = CellBox { lo, hi };
    let change = DirectoryChange::Patch { cells, bucket: 7 };
    assert!(rt; renews(&Dims { intervals }, &change, &[1, 2, 3]));
    let intervals = [7, 8, 9, 10];
    let (lo, hi) = ([2, 0, 8, 9], [5, 0, 8, 9]);
    let cells = CellBox { lo, hi };
    let change = DirectoryChange::Patch { cells, bucket: 7 };
    assert!(rt; renews(&Dims { intervals }, &change, &[1, 2, 3]));
    Ok(())
}

#[test]
#[tactic(auto, using(grid_cells::proofs::Literals::literal))]
fn cuts_and_merges_change_the_directory(rt: HostRuntime) -> Result<(), Fail> {
    let mut before = Scales::<2>::new(rt.alloc(), 8)?;
    assert_eq!(rt; before.refine(0, 10), Ok(()));
    assert_eq!(rt; before.refine(1, 6), Ok(()));
    let mut after = Scales::<2>::new(rt.alloc(), 8)?;
    assert_eq!(rt; after.refine(0, 10), Ok(()));
    assert_eq!(rt; after.refine(1, 3), Ok(()));
    assert_eq!(rt; after.refine(1, 6), Ok(()));
    let region = Region {
        lo: [0, 3],
        hi: [9, u64::MAX],
    };
    let (attribute, value) = (1, 3);
    let mut cut = Cut {
        attribute,
        value,
        fresh: true,
    };
    let (lo, hi) = ([0, 1], [0, 2]);
    let cells = CellBox { lo, hi };
    assert_eq!(rt;
        change_of_cut(&before, &after, &region, cut, 4),
        DirectoryChange::Grow {
            attribute,
            interval: 0,
            cells,
            bucket: 4
        }
    );
    cut.fresh = false;
    assert_eq!(rt;
        change_of_cut(&after, &after, &region, cut, 4),
        DirectoryChange::Patch { cells, bucket: 4 }
    );
    assert_eq!(rt;
        change_of_merge(&after, &region, 2),
        DirectoryChange::Patch { cells, bucket: 2 }
    );
    Ok(())
}

#[test]
#[tactic(auto, using(grid_cells::proofs::Literals::literal))]
fn a_growth_renews_each_part(rt: HostRuntime) -> Result<(), Fail> {
    let intervals = [60, 50];
    let (lo, hi) = ([0, 0], [0, 0]);
    let change = DirectoryChange::Grow {
        attribute: 0,
        interval: 59,
        cells: CellBox { lo, hi },
        bucket: 1,
    };
    let dims = Dims { intervals };
    assert_eq!(rt; count_changed_parts(&dims, &change), 4);
    assert_eq!(rt; next_changed_part(&dims, &change, 3), Some(3));
    assert_eq!(rt; next_changed_part(&dims, &change, 4), None);
    assert_eq!(rt; need(2, &dims, &change, true), 7);
    assert_eq!(rt; need(1, &dims, &DirectoryChange::Nothing, false), 1);
    Ok(())
}
