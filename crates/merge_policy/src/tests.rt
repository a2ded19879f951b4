use super::*;
use grid_types::{Key, Region};
use std::test::*;

#[test]
fn neighbours_are_sought_below_before_above(rt: HostRuntime) -> Result<(), Fail> {
    assert_eq!(rt; Direction::at::<2>(0), Some(Direction::Below(0)));
    assert_eq!(rt; Direction::at::<2>(1), Some(Direction::Above(0)));
    assert_eq!(rt; Direction::at::<2>(2), Some(Direction::Below(1)));
    assert_eq!(rt; Direction::at::<2>(3), Some(Direction::Above(1)));
    assert_eq!(rt; Direction::at::<2>(4), None);
    let region = Region {
        lo: [5, 0],
        hi: [u64::MAX, 3],
    };
    assert_eq!(rt;
        probe(&region, Direction::Below(0)),
        Some(Key { numbers: [4, 0] })
    );
    assert_eq!(rt; probe(&region, Direction::Above(0)), None);
    assert_eq!(rt; probe(&region, Direction::Below(1)), None);
    assert_eq!(rt;
        probe(&region, Direction::Above(1)),
        Some(Key { numbers: [5, 4] })
    );
    Ok(())
}

#[test]
fn regions_that_are_a_box_are_joined(rt: HostRuntime) -> Result<(), Fail> {
    let left = Region {
        lo: [0, 0],
        hi: [4, u64::MAX],
    };
    let right = Region {
        lo: [5, 0],
        hi: [u64::MAX, u64::MAX],
    };
    assert!(rt; joinable(&left, &right, 1, 2));
    assert!(rt; !joinable(&left, &right, 2, 2));
    assert!(rt; joinable(&left, &right, 33, 48));
    assert!(rt; !joinable(&left, &right, 34, 48));
    let corner = Region {
        lo: [5, 0],
        hi: [u64::MAX, 3],
    };
    assert!(rt; !joinable(&left, &corner, 0, 48));
    Ok(())
}
