//! The worked rows.
ghost use Rattle.std.specs.Prelude.{◌≡◌, ◌<◌};

use super::asking::{Ask, Told, asked, new_file, shape_of};
use crate::open_store;
use disk_memory::Memory;
use disk_trait::Steps;
use grid_types::{Refusal, Shape, Stat};
use std::alloc::{AllocError, Global};
use std::marker::Brand;
use std::process::Abort;
use std::sync::ledger::{Blank, Ledger};
use std::test::*;

/// A file of 64 pages, in which each scale gets a boundary.
const SIX: [(Ask, Told); 6] = [
    (Ask::Put(3, 7, 1), Ok((1, None))),
    (Ask::Put(5, 1, 2), Ok((2, None))),
    (Ask::Put(9, 9, 3), Ok((3, None))),
    (Ask::Put(6, 4, 4), Ok((4, None))),
    (Ask::Put(1, 1, 5), Ok((5, None))),
    (Ask::Put(2, 9, 6), Ok((6, None))),
];

/// One of 8 pages: a put is refused, since they are too few.
const FEW_PAGES: [(Ask, Told); 10] = [
    (Ask::Put(3, 7, 1), Ok((1, None))),
    (Ask::Put(5, 1, 2), Ok((2, None))),
    (Ask::Put(9, 9, 3), Ok((3, None))),
    (Ask::Put(6, 4, 4), Ok((4, None))),
    (Ask::Put(1, 1, 5), Ok((5, None))),
    (Ask::Put(2, 9, 6), Ok((6, None))),
    (Ask::Put(1, 2, 7), Ok((7, None))),
    (Ask::Put(2, 2, 8), Err(Refusal::Full { free: 3, need: 4 })),
    (Ask::Remove(2, 2), Ok((7, None))),
    (Ask::Remove(1, 1), Ok((8, Some(5)))),
];

/// Two removes, of which the second joins two buckets.
const MERGED: [(Ask, Told); 6] = [
    (Ask::Remove(4, 4), Ok((0, None))),
    (Ask::Put(3, 7, 1), Ok((1, None))),
    (Ask::Put(5, 1, 2), Ok((2, None))),
    (Ask::Put(9, 9, 3), Ok((3, None))),
    (Ask::Remove(3, 7), Ok((4, Some(1)))),
    (Ask::Remove(9, 9), Ok((5, Some(3)))),
];

/// One boundary at most: the fourth put of one number finds no cut.
const UNCUT: [(Ask, Told); 4] = [
    (Ask::Put(1, 1, 0), Ok((1, None))),
    (Ask::Put(1, 2, 0), Ok((2, None))),
    (Ask::Put(1, 3, 0), Ok((3, None))),
    (
        Ask::Put(1, 4, 0),
        Err(Refusal::NoCut {
            cells: 2,
            boundaries: 1,
        }),
    ),
];

/// One slot in each half: puts make root steps by themselves.
const ROOTED: [(Ask, Told); 5] = [
    (Ask::Put(3, 7, 1), Ok((1, None))),
    (Ask::Put(5, 1, 2), Ok((2, None))),
    (Ask::Put(9, 9, 3), Ok((3, None))),
    (Ask::Put(9, 9, 4), Ok((4, Some(3)))),
    (Ask::Root, Ok((4, None))),
];

fn counts(records: u64, cells: u32, buckets: u32, free: u32) -> Stat {
    Stat {
        records,
        cells,
        buckets,
        free,
    }
}

/// Which line of a script is the first that a new store tells otherwise, or how many lines there are; and what is counted at
/// the end. None where the file is not opened.
fn played<L: Ledger>(
    alloc: Global,
    shape: &Shape,
    script: &[(Ask, Told)],
    steps: &mut Steps<L>,
) -> Result<Option<(usize, Stat)>, AllocError> {
    let disk = Box::new(alloc, new_file(alloc, 104, shape)?)?;
    let Ok(mut store) = open_store::<2, Memory, L>(alloc, disk, steps) else {
        return Ok(None);
    };
    for (i, (ask, wanted)) in script.iter().enumerate() {
        if asked(&mut store, *ask, steps) != *wanted {
            return Ok(Some((i, store.stat().value)));
        }
    }
    Ok(Some((script.len(), store.stat().value)))
}

/// Asserts that a new store tells a script as it should, and what is counted then.
fn play<L: Ledger>(
    rt: &impl Abort,
    alloc: Global,
    shape: Shape,
    script: &[(Ask, Told)],
    stat: Stat,
    steps: &mut Steps<L>,
) -> Result<(), AllocError> {
    let found = played(alloc, &shape, script, steps)?;
    assert_eq!(rt; found, Some((script.len(), stat)));
    Ok(())
}

/// The worked rows, and one slot in each half, where each put behind the first makes a root step by itself.
fn play_all<L: Ledger>(rt: &impl Abort, alloc: Global, blank: Blank) -> Result<(), AllocError>
    requires name { blank.name ≡ L.name }
    requires parts { blank.parts ≡ L.parts }
    requires some { 0 < L.parts }
{
    let mut steps = Steps::<L>::new(blank);
    let steps = &mut steps;
    play(
        rt,
        alloc,
        shape_of(64, 8, 600),
        &SIX,
        counts(6, 4, 4, 57),
        steps,
    )?;
    play(
        rt,
        alloc,
        shape_of(8, 8, 600),
        &FEW_PAGES,
        counts(6, 4, 4, 2),
        steps,
    )?;
    play(
        rt,
        alloc,
        shape_of(64, 8, 600),
        &MERGED,
        counts(1, 2, 1, 60),
        steps,
    )?;
    play(
        rt,
        alloc,
        shape_of(64, 8, 1),
        &UNCUT,
        counts(3, 2, 2, 59),
        steps,
    )?;
    play(
        rt,
        alloc,
        shape_of(64, 1, 600),
        &ROOTED,
        counts(3, 2, 2, 61),
        steps,
    )
}

#[test]
fn worked_rows_are_told(rt: HostRuntime) -> Result<(), Fail> {
    play_all::<Brand>(&rt, rt.alloc(), Blank::new(1))?;
    Ok(())
}
