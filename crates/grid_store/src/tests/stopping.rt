//! A disk that is stopped, at any call of a store or of an opening.
ghost use Rattle.std.specs.Prelude.{◌≡◌, ◌<◌};

use super::script::{ALL_CALLS, LAST, copy_of, found_on, is_right, opened_until, script_file};
use disk_memory::{Keep, Memory};
use disk_trait::Steps;
use std::alloc::{AllocError, Global};
use std::marker::Brand;
use std::sync::ledger::{Blank, Ledger};
use std::test::*;

/// How many calls lie between two at which a run is stopped; how many such files lie between two whose next opening is stopped too,
/// and how many calls between two at which it is. With 1 each call is tried, which takes minutes.
const EVERY_CALL: u64 = 4;

const EVERY_FILE: u64 = 12;

const EVERY_AGAIN: u64 = 16;

/// Whether the same is found in a file when its opening was stopped at calls in turn, up to the first one that is not stopped.
fn stays_put<L: Ledger>(
    alloc: Global,
    image: &Memory,
    steps: &mut Steps<L>,
) -> Result<bool, AllocError> {
    let whole = found_on(alloc, copy_of(alloc, image)?, steps)?;
    for turn in 0..ALL_CALLS {
        let disk = copy_of(alloc, image)?;
        let keep = keep_of(turn);
        let (_, found, left) = opened_until(alloc, disk, turn * EVERY_AGAIN, keep, false, steps)?;
        if found_on(alloc, left, steps)? != whole {
            return Ok(false);
        }
        if found.is_some() {
            return Ok(true);
        }
    }
    Ok(false)
}

/// Each of the three in turn.
fn keep_of(turn: u64) -> Keep {
    match turn % 3 {
        0 => Keep::All,
        1 => Keep::None,
        _ => Keep::Changed,
    }
}

/// Runs the script on a disk that is stopped at calls in turn: the first turn that leaves a file which is not opened as it should
/// be, or 0 where there is none.
fn first_lost<L: Ledger>(alloc: Global, blank: Blank) -> Result<u64, AllocError>
    requires name { blank.name ≡ L.name }
    requires parts { blank.parts ≡ L.parts }
    requires some { 0 < L.parts }
{
    let mut steps = Steps::<L>::new(blank);
    for turn in 1..ALL_CALLS {
        let disk = script_file(alloc)?;
        let keep = keep_of(turn);
        let (answered, _, left) = opened_until(
            alloc,
            disk,
            turn * EVERY_CALL,
            keep,
            true,
            &mut steps,
        )?;
        let image = copy_of(alloc, &left)?;
        if !is_right(answered, found_on(alloc, left, &mut steps)?) {
            return Ok(turn);
        }
        if turn % EVERY_FILE == 0 && !stays_put(alloc, &image, &mut steps)? {
            return Ok(turn);
        }
        if answered == LAST {
            return Ok(0);
        }
    }
    Ok(ALL_CALLS)
}

#[test]
fn a_stopped_file_is_opened_again(rt: HostRuntime) -> Result<(), Fail> {
    assert_eq!(rt; first_lost::<Brand>(rt.alloc(), Blank::new(1))?, 0);
    Ok(())
}
