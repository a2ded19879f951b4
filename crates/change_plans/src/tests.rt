ghost use Rattle.std.specs.Prelude.{◌≡◌, []};

use super::*;
use arrayvec::ArrayVec;
use bucket_page::{Bucket, encode, get_on, judge};
use grid_types::{Cut, Data, Key, PAGE_BYTES, Record, Region, Shape};
use linear_scales::Scales;
use split_policy::Median;
use std::test::*;

const TOP: u64 = u64::MAX;

/// A shape for buckets of two records, with so many boundaries in a scale.
fn shape_of(boundaries: u32) -> Shape
    ensures { result.capacity ≡ 2 }
{
    Shape {
        k: 2,
        capacity: 2,
        pages: 64,
        slots: 8,
        boundaries,
        cells: 1_000_000,
    }
}

/// The record of a key.
fn row_of(numbers: [u64; 2]) -> Record<2> {
    Record {
        key: Key { numbers },
        value: Data::default(),
    }
}

/// The page of the bucket of a new file.
fn first_page() -> [u8; PAGE_BYTES] {
    let bucket: Bucket<2> = Bucket {
        number: 0,
        turn: 0,
        region: Region::whole(),
        rows: ArrayVec::new(),
    };
    let mut page = [0; PAGE_BYTES];
    encode(&bucket, 2, &mut page);
    page
}

/// The page of the bucket of a new file with the records of two keys, which fill it.
fn full_page(first: [u64; 2], second: [u64; 2]) -> [u8; PAGE_BYTES] {
    let mut page = first_page();
    is_put(&mut page, first);
    is_put(&mut page, second);
    page
}

/// How many records a page has, or 9 where it spells no bucket of two attributes.
fn count_on(page: &[u8; PAGE_BYTES]) -> usize {
    match judge::<2>(page, 2) {
        Some(head) => head.count as usize,
        None => 9,
    }
}

/// Whether there was room for a key on a page, which has it then.
fn is_put(page: &mut [u8; PAGE_BYTES], numbers: [u64; 2]) -> bool {
    let Some(head) = judge::<2>(page, 2) else {
        return false;
    };
    let mut next = [0; PAGE_BYTES];
    let placed = put_in(page, head.count as usize, 2, &row_of(numbers), &mut next);
    if placed == Placed::CutDue {
        return false;
    }
    page.copy_from_slice(&next);
    true
}

/// Whether a key was on a page, which lacks it then.
fn is_taken(page: &mut [u8; PAGE_BYTES], numbers: [u64; 2]) -> bool {
    let Some(head) = judge::<2>(page, 2) else {
        return false;
    };
    let mut next = [0; PAGE_BYTES];
    let old = take_from(page, head.count as usize, &Key { numbers }, &mut next);
    if old.is_none() {
        return false;
    }
    page.copy_from_slice(&next);
    true
}

/// Where a bucket was cut, and the pages of its parts.
#[derive(Drop)]
struct Parts {
    cut: Option<Cut>,
    left: [u8; PAGE_BYTES],
    right: [u8; PAGE_BYTES],
}

impl Parts {
    /// How many records each part has.
    fn counts(&self) -> [usize; 2] {
        [count_on(&self.left), count_on(&self.right)]
    }
}

/// The bucket of a page cut by the rule of the median with the record of a key, where a scale has at most so many boundaries.
fn cut_with(
    from: &[u8; PAGE_BYTES],
    numbers: [u64; 2],
    scales: &Scales<2>,
    boundaries: u32,
    unused: u32,
) -> Parts {
    let shape = shape_of(boundaries);
    let row = row_of(numbers);
    let mut left = [0; PAGE_BYTES];
    let mut right = [0; PAGE_BYTES];
    let cut = cut_of(
        &Median, from, &row, scales, &shape, unused, &mut left, &mut right,
    );
    Parts { cut, left, right }
}

fn cut_at(attribute: u8, value: u64, fresh: bool) -> Option<Cut> {
    Some(Cut {
        attribute,
        value,
        fresh,
    })
}

#[test]
fn full_buckets_are_cut(rt: HostRuntime) -> Result<(), Fail> {
    let mut scales = Scales::new(rt.alloc(), 1000)?;
    let mut page = full_page([3, 7], [5, 1]);
    assert!(rt; !is_put(&mut page, [9, 9]));
    let mut first = cut_with(&page, [9, 9], &scales, 1000, 1);
    assert_eq!(rt; first.cut, cut_at(0, 5, true));
    assert_eq!(rt; first.counts(), [1, 2]);
    assert_eq!(rt; scales.refine(0, 5), Ok(()));
    assert!(rt; !is_put(&mut first.right, [6, 4]));
    let second = cut_with(&first.right, [6, 4], &scales, 1000, 2);
    assert_eq!(rt; second.cut, cut_at(1, 4, true));
    assert_eq!(rt; second.counts(), [1, 2]);
    assert_eq!(rt; scales.refine(1, 4), Ok(()));
    assert!(rt; is_put(&mut first.left, [1, 1]));
    assert!(rt; !is_put(&mut first.left, [2, 9]));
    let third = cut_with(&first.left, [2, 9], &scales, 1000, 3);
    assert_eq!(rt; third.cut, cut_at(1, 4, false));
    assert_eq!(rt; third.counts(), [1, 2]);
    Ok(())
}

#[test]
fn cuts_go_to_the_top_or_there_are_none(rt: HostRuntime) -> Result<(), Fail> {
    let mut scales = Scales::new(rt.alloc(), 1000)?;
    let page = full_page([0, 0], [TOP, TOP]);
    assert_eq!(rt;
        cut_with(&page, [0, 1], &scales, 1000, 1).cut,
        cut_at(0, TOP, true)
    );
    let page = full_page([1, 1], [1, 2]);
    let mut parts = cut_with(&page, [1, 3], &scales, 1, 1);
    assert_eq!(rt; parts.cut, cut_at(1, 2, true));
    assert_eq!(rt; scales.refine(1, 2), Ok(()));
    assert!(rt; !is_put(&mut parts.right, [1, 4]));
    assert_eq!(rt; cut_with(&parts.right, [1, 4], &scales, 1, 2).cut, None);
    Ok(())
}

#[test]
fn buckets_with_few_records_are_joined(rt: HostRuntime) -> Result<(), Fail> {
    let scales = Scales::new(rt.alloc(), 1000)?;
    let mut page = full_page([3, 7], [5, 1]);
    let mut parts = cut_with(&page, [9, 9], &scales, 1000, 1);
    assert_eq!(rt; parts.cut, cut_at(0, 5, true));
    let key = Key { numbers: [3, 7] };
    assert_eq!(rt;
        join_of(&parts.left, &key, &parts.right, 2, &mut page),
        None
    );
    assert!(rt; is_taken(&mut parts.left, [3, 7]));
    assert!(rt; !is_taken(&mut parts.left, [3, 7]));
    let key = Key { numbers: [9, 9] };
    assert_eq!(rt;
        join_of(&parts.right, &key, &parts.left, 2, &mut page),
        Some(0)
    );
    assert_eq!(rt; count_on(&page), 1);
    let left_over = get_on(&page, 1, &Key { numbers: [5, 1] });
    assert!(rt; left_over.is_some());
    Ok(())
}
