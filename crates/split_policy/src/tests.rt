ghost use Rattle.std.specs.Prelude.{◌≡◌, ◌≤◌, length, IfOk};

use super::*;
use grid_types::{Cut, Data, Key, Record, Region, Shape};
use linear_scales::Scales;
use std::alloc::{AllocError, Global};
use std::test::*;

/// Records with these keys.
fn rows_of<const K: usize>(alloc: Global, keys: &[[u64; K]]) -> Result<Vec<Record<K>>, AllocError>
    ensures { IfOk result (λ rows. length rows.items ≡ length keys.now) }
{
    let mut rows = Vec::new(alloc);
    for numbers in keys {
        let key = Key { numbers: *numbers };
        let value = Data::default();
        rows.push(Record { key, value })?;
    }
    Ok(rows)
}

/// Scales with these boundaries, each with its attribute.
fn scales_of<const K: usize>(
    alloc: Global,
    boundaries: &[(usize, u64)],
) -> Result<Scales<K>, AllocError> {
    let mut scales = Scales::new(alloc, 1000)?;
    for boundary in boundaries {
        let (a, v) = *boundary;
        if a < K && 1 <= v {
            let _refined = scales.refine(a, v);
        }
    }
    Ok(scales)
}

/// A shape with these limits on a scale and on the directory.
fn shape_of(boundaries: u32, cells: u32) -> Shape {
    Shape {
        k: 1,
        capacity: 2,
        pages: 8,
        slots: 1,
        boundaries,
        cells,
    }
}

/// The cut of a rule for a bucket with these keys among these boundaries.
fn cut_by<const K: usize, R: CutRule<K>>(
    alloc: Global,
    rule: &R,
    keys: &[[u64; K]],
    boundaries: &[(usize, u64)],
    region: &Region<K>,
    turn: u8,
    shape: &Shape,
) -> Result<Option<Cut>, AllocError>
    requires attributes { K ≤ 4 }
    requires few { length keys.now ≤ 49 }
{
    let rows = rows_of(alloc, keys)?;
    let scales = scales_of(alloc, boundaries)?;
    Ok(rule.cut(&rows, &scales, region, turn, shape))
}

fn old(attribute: u8, value: u64) -> Option<Cut> {
    Some(Cut {
        attribute,
        value,
        fresh: false,
    })
}

fn new(attribute: u8, value: u64) -> Option<Cut> {
    Some(Cut {
        attribute,
        value,
        fresh: true,
    })
}

#[test]
fn buckets_of_two_attributes_are_cut(rt: HostRuntime) -> Result<(), Fail> {
    let alloc = rt.alloc();
    let shape = shape_of(1000, 1_000_000);
    let whole = Region::whole();
    let keys = [[3, 7], [5, 1], [9, 9]];
    assert_eq!(rt;
        cut_by(alloc, &Median, &keys, &[], &whole, 0, &shape)?,
        new(0, 5)
    );
    let upper = Region {
        lo: [5, 0],
        hi: [u64::MAX, u64::MAX],
    };
    let keys = [[5, 1], [6, 4], [9, 9]];
    assert_eq!(rt;
        cut_by(alloc, &Median, &keys, &[(0, 5)], &upper, 1, &shape)?,
        new(1, 4)
    );
    let lower = Region {
        lo: [0, 0],
        hi: [4, u64::MAX],
    };
    let keys = [[1, 1], [2, 9], [3, 7]];
    let both = [(0, 5), (1, 4)];
    assert_eq!(rt;
        cut_by(alloc, &Median, &keys, &both, &lower, 1, &shape)?,
        old(1, 4)
    );
    let narrow = shape_of(1, 1_000_000);
    let keys = [[1, 1], [1, 2], [1, 3]];
    assert_eq!(rt;
        cut_by(alloc, &Median, &keys, &[], &whole, 0, &narrow)?,
        new(1, 2)
    );
    let right = Region {
        lo: [0, 2],
        hi: [u64::MAX, u64::MAX],
    };
    let keys = [[1, 2], [1, 3], [1, 4]];
    assert_eq!(rt;
        cut_by(alloc, &Median, &keys, &[(1, 2)], &right, 0, &narrow)?,
        None
    );
    Ok(())
}

#[test]
fn buckets_of_other_attributes_are_cut(rt: HostRuntime) -> Result<(), Fail> {
    let alloc = rt.alloc();
    let shape = shape_of(1000, 1_000_000);
    let keys = [[10], [20], [30]];
    let two = [(0, 15), (0, 25)];
    assert_eq!(rt;
        cut_by(alloc, &Median, &keys, &two, &Region::whole(), 0, &shape)?,
        old(0, 15)
    );
    let keys = [[1, 5, 9], [2, 4, 8], [3, 6, 7], [4, 7, 6]];
    let four = [(0, 2), (0, 4), (1, 6), (2, 8)];
    assert_eq!(rt;
        cut_by(alloc, &Median, &keys, &four, &Region::whole(), 2, &shape)?,
        old(1, 6)
    );
    assert_eq!(rt;
        cut_by(alloc, &Median, &keys, &[], &Region::whole(), 2, &shape)?,
        new(2, 8)
    );
    let keys = [
        [1, 1, 1, 1],
        [1, 1, 1, 5],
        [1, 1, 2, 5],
        [1, 3, 2, 5],
        [7, 3, 2, 5],
    ];
    let three = shape_of(1000, 3);
    let far = [(2, 9), (2, 10)];
    assert_eq!(rt;
        cut_by(alloc, &Median, &keys, &far, &Region::whole(), 2, &three)?,
        None
    );
    let four = shape_of(1000, 4);
    assert_eq!(rt;
        cut_by(alloc, &Median, &keys, &far, &Region::whole(), 2, &four)?,
        new(2, 2)
    );
    Ok(())
}
