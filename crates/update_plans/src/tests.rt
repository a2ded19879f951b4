ghost use Rattle.std.specs.Prelude.{◌≡◌, ◌≤◌, replicate, IfOk, IsTrue};
ghost use Rattle.grid_types.specs.declared.shape.Shape.{Shape};
ghost use Rattle.grid_types.specs.Shapes.{is_shape};
ghost use Rattle.linear_scales.specs.Limited.{scales_of, limits_of};
ghost use Rattle.file_books.specs.Books.{AreScalesOf};

use super::*;
use arrayvec::ArrayVec;
use bucket_page::{Bucket, encode, judge};
use change_plans::{Placed, put_in};
use directory_changes::DirectoryChange;
use file_books::RecordChange;
use grid_types::{CellBox, Cut, Data, Key, LayoutChange, PAGE_BYTES, Record, Region, Shape};
use linear_scales::Scales;
use std::alloc::{AllocError, Global};
use std::test::*;

/// The page of bucket 7 with the whole region and no record.
fn empty_page() -> [u8; PAGE_BYTES] {
    let bucket: Bucket<2> = Bucket {
        number: 7,
        turn: 0,
        region: Region::whole(),
        rows: ArrayVec::new(),
    };
    let mut page = [0; PAGE_BYTES];
    encode(&bucket, 2, &mut page);
    page
}

/// A page with a record of that key more, where it has room.
fn with_key(page: &[u8; PAGE_BYTES], numbers: [u64; 2]) -> [u8; PAGE_BYTES] {
    let mut next = [0; PAGE_BYTES];
    let Some(head) = judge::<2>(page, 2) else {
        return next;
    };
    let row = Record {
        key: Key { numbers },
        value: Data::default(),
    };
    let placed = put_in(page, head.count as usize, 2, &row, &mut next);
    if placed == Placed::CutDue {
        return *page;
    }
    next
}

#[test]
fn removals_are_planned(rt: HostRuntime) -> Result<(), Fail> {
    let page = with_key(&with_key(&empty_page(), [3, 7]), [5, 1]);
    let mut left = [0; PAGE_BYTES];
    assert_eq!(rt;
        plan_removal(&page, &Key { numbers: [3, 8] }, &mut left),
        None
    );
    assert_eq!(rt;
        plan_removal(&page, &Key { numbers: [3, 7] }, &mut left),
        Some(Plan {
            bucket: 7,
            note: LayoutChange::Plain,
            directory: DirectoryChange::Nothing,
            records: RecordChange::Fewer,
            old: Some(Data::default()),
            need: 1,
            pages: 1,
        })
    );
    assert!(rt; left == with_key(&empty_page(), [5, 1]));
    Ok(())
}

/// A shape for buckets of two records and a directory of at most so many cells.
#[tactic(auto, using(crate::proofs::InMemory::shape_is_lawful))]
fn shape_of(cells: u32) -> Shape
    requires some { 2 ≤ cells }
    requires few { cells ≤ 1000 }
    ensures lawful { IsTrue (is_shape result) }
    ensures boundaries { result.boundaries ≡ 1000 }
    ensures cells { result.cells ≡ cells }
{
    Shape {
        k: 2,
        capacity: 2,
        pages: 64,
        slots: 8,
        boundaries: 1000,
        cells,
    }
}

/// Scales with the boundary 5 in the first attribute, or without any.
fn scales_of(alloc: Global, bounded: bool) -> Result<Scales<2>, AllocError>
    ensures scales { (shape : Shape)
        → shape.boundaries ≡ 1000
        → 2 ≤ shape.cells
        → IfOk result (λ s. AreScalesOf 2 shape (scales_of s)) }
    ensures limits { IfOk result (λ s. limits_of s ≡ replicate 2 1000) }
{
    let mut scales = Scales::new(alloc, 1000)?;
    if bounded {
        let _added = scales.refine(0, 5);
    }
    Ok(scales)
}

/// What comes of a key that is to be put, where bucket 1 is new.
fn planned(
    alloc: Global,
    shape: &Shape,
    bounded: bool,
    from: &[u8; PAGE_BYTES],
    numbers: [u64; 2],
) -> Result<Planned<2>, AllocError>
    requires lawful { IsTrue (is_shape shape.now) }
    requires boundaries { shape.now.boundaries ≡ 1000 }
    requires cells { 2 ≤ shape.now.cells }
{
    let scales = scales_of(alloc, bounded)?;
    let mut refined = scales_of(alloc, false)?;
    let row = Record {
        key: Key { numbers },
        value: Data::default(),
    };
    let mut first = [0; PAGE_BYTES];
    let mut second = [0; PAGE_BYTES];
    Ok(plan_put(
        from,
        &row,
        &scales,
        &mut refined,
        1,
        shape,
        &mut first,
        &mut second,
    ))
}

/// The plan of a put that leaves the layout.
fn plain(records: RecordChange, old: Option<Data>) -> Planned<2> {
    Planned::Plan(Plan {
        bucket: 7,
        note: LayoutChange::Plain,
        directory: DirectoryChange::Nothing,
        records,
        old,
        need: 2,
        pages: 1,
    })
}

/// The plan of a put whose bucket is cut at 5 in the first attribute.
fn cut_at_five(fresh: bool) -> Planned<2> {
    let (attribute, value) = (0, 5);
    let cells = CellBox {
        lo: [1, 0],
        hi: [1, 0],
    };
    let bucket = 1;
    let directory = if fresh {
        DirectoryChange::Grow {
            attribute,
            interval: 0,
            cells,
            bucket,
        }
    } else {
        DirectoryChange::Patch { cells, bucket }
    };
    let cut = Cut {
        attribute,
        value,
        fresh,
    };
    Planned::Plan(Plan {
        bucket: 7,
        note: LayoutChange::Cut { cut, right: bucket },
        directory,
        records: RecordChange::More,
        old: None,
        need: 4,
        pages: 3,
    })
}

#[test]
fn puts_are_planned(rt: HostRuntime) -> Result<(), Fail> {
    let alloc = rt.alloc();
    let (shape, narrow) = (shape_of(1000), shape_of(2));
    let page = with_key(&empty_page(), [5, 1]);
    let full = with_key(&page, [6, 7]);
    assert_eq!(rt;
        planned(alloc, &shape, false, &[0; PAGE_BYTES], [5, 1])?,
        Planned::NoBucket
    );
    assert_eq!(rt;
        planned(alloc, &shape, false, &page, [3, 9])?,
        plain(RecordChange::More, None)
    );
    assert_eq!(rt;
        planned(alloc, &narrow, true, &full, [5, 1])?,
        plain(RecordChange::Same, Some(Data::default()))
    );
    assert_eq!(rt;
        planned(alloc, &shape, false, &full, [3, 9])?,
        cut_at_five(true)
    );
    assert_eq!(rt;
        planned(alloc, &shape, true, &full, [3, 9])?,
        cut_at_five(false)
    );
    assert_eq!(rt;
        planned(alloc, &narrow, true, &full, [9, 9])?,
        Planned::NoCut {
            cells: 2,
            boundaries: 1,
        }
    );
    Ok(())
}
