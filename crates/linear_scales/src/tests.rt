ghost use Rattle.std.specs.Prelude.{◌≡◌, ◌≤◌, ◌<◌, IfOk};

use super::*;
use grid_types::{CellBox, Key, Query, Side};
use std::alloc::{AllocError, Global};
use std::test::*;

const STEP: u64 = 1_000_000_000_000;

/// A scale with the boundaries one step, two steps and so on, which were added in another order.
fn scale_of(alloc: Global, count: u64) -> Result<Scale, AllocError>
    requires { count ≤ 1000 }
    ensures { IfOk result (λ s. s.limit ≡ 1000) }
{
    let mut scale = Scale::new(alloc, 1000)?;
    for j in 0..count {
        let _added = scale.refine(STEP * (1 + j * 389 % count));
    }
    Ok(scale)
}

/// Whether each number around the boundary of that index lies where a plain count says.
fn is_found(scale: &Scale, j: u32) -> bool
    requires { j < 1000 }
{
    let boundary = STEP * (1 + u64::from(j));
    scale.interval(boundary) == j + 1
        && scale.interval(boundary - 1) == j
        && scale.interval(boundary + 1) == j + 1
}

/// Whether the bounds of the interval of that index are the boundaries around it.
fn is_bounded(scale: &Scale, j: u32) -> bool
    requires { j < 1000 }
{
    if scale.boundaries().len() < 1000 {
        return false;
    }
    let begin = STEP * u64::from(j);
    scale.bounds(j) == (begin, begin + STEP - 1)
}

/// Whether a scale with these many boundaries finds the interval of each number that is tried.
fn is_exact(alloc: Global, count: u32) -> Result<bool, AllocError>
    requires { count ≤ 1000 }
{
    let scale = scale_of(alloc, count.into())?;
    for j in 0..count {
        if !is_found(&scale, j) {
            return Ok(false);
        }
    }
    Ok(
        scale.intervals() == count + 1
            && scale.interval(0) == 0
            && scale.interval(u64::MAX) == count,
    )
}

#[test]
fn numbers_lie_in_their_intervals(rt: HostRuntime) -> Result<(), Fail> {
    for count in [0, 1, 5, 1000] {
        assert!(rt; is_exact(rt.alloc(), count)?);
    }
    Ok(())
}

#[test]
fn bounds_lie_between_boundaries(rt: HostRuntime) -> Result<(), Fail> {
    let scale = scale_of(rt.alloc(), 1000)?;
    for j in 0..1000 {
        assert!(rt; is_bounded(&scale, j));
    }
    let few = scale_of(rt.alloc(), 0)?;
    assert_eq!(rt; few.bounds(0), (0, u64::MAX));
    Ok(())
}

#[test]
fn a_refused_boundary_changes_nothing(rt: HostRuntime) -> Result<(), Fail> {
    let mut scale = Scale::new(rt.alloc(), 2)?;
    assert_eq!(rt; scale.refine(7), Ok(()));
    assert_eq!(rt; scale.refine(7), Err(ScaleRefused::Present));
    assert_eq!(rt; scale.refine(5), Ok(()));
    assert_eq!(rt; scale.refine(6), Err(ScaleRefused::Limit));
    assert_eq!(rt; scale.refine(5), Err(ScaleRefused::Present));
    assert_eq!(rt; scale.boundaries(), [5, 7].as_slice());
    assert_eq!(rt; scale.limit(), 2);
    Ok(())
}

#[test]
fn sides_meet_their_intervals(rt: HostRuntime) -> Result<(), Fail> {
    let scale = scale_of(rt.alloc(), 5)?;
    assert_eq!(rt; scale.interval_range(&Side::Any), (0, 5));
    assert_eq!(rt; scale.interval_range(&Side::Exactly(2 * STEP)), (2, 2));
    assert_eq!(rt; scale.interval_range(&Side::Between(1, 3 * STEP)), (0, 3));
    Ok(())
}

#[test]
fn keys_and_queries_have_cells(rt: HostRuntime) -> Result<(), Fail> {
    let mut scales = Scales::<2>::new(rt.alloc(), 3)?;
    assert_eq!(rt; scales.refine(0, 5), Ok(()));
    assert_eq!(rt; scales.refine(1, 4), Ok(()));
    assert_eq!(rt; scales.refine(1, 8), Ok(()));
    let mut copy = Scales::<2>::new(rt.alloc(), 3)?;
    assert_eq!(rt; copy.cell_of(&Key { numbers: [9, 9] }), [0, 0]);
    copy.copy_from(&scales);
    assert_eq!(rt; copy.cell_of(&Key { numbers: [5, 7] }), [1, 1]);
    let query = Query {
        sides: [Side::Any, Side::Between(4, 8)],
    };
    assert_eq!(rt;
        copy.cells_meeting(&query),
        CellBox {
            lo: [0, 1],
            hi: [1, 2]
        }
    );
    assert_eq!(rt; copy.scale(1).boundaries(), [4, 8].as_slice());
    assert_eq!(rt; copy.boundaries(), 3);
    Ok(())
}
