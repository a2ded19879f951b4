//! A disk of which a call fails.
ghost use Rattle.std.specs.Prelude.{◌≡◌, ◌<◌};

use super::asking::{Ask, asked};
use super::script::{ALL_CALLS, SCRIPT, found_in, found_on, is_right, plain_table, script_file};
use crate::{Store, open_store};
use disk_memory::{Fused, Keep, Memory};
use disk_trait::{Disk, Steps};
use grid_types::Refusal;
use std::alloc::{AllocError, Global};
use std::marker::Brand;
use std::sync::ledger::{Blank, Ledger};
use std::test::*;

/// How many calls lie between two that fail. With 1 each call is tried.
const EVERY_FAULT: u64 = 7;

/// Whether a store whose batch failed reads on where it was, and refuses changes.
fn is_stopped<D: Disk, L: Ledger>(
    store: &mut Store<2, D>,
    answered: u64,
    steps: &mut Steps<L>,
) -> bool {
    let stopped = Err(Refusal::Stopped {
        faults: 1,
        opened: 0,
    });
    let table = plain_table(answered);
    found_in(store, steps) == Ok((answered, table))
        && asked(store, Ask::Put(1, 1, 9), steps) == stopped
        && asked(store, Ask::Root, steps) == stopped
}

/// Runs the script on a disk of which one call fails: the last answered place, and whether a batch failed. A line whose call
/// failed otherwise is asked again. None where the store tells something else than it should.
fn run_failing<D: Disk, L: Ledger>(
    store: &mut Store<2, D>,
    steps: &mut Steps<L>,
) -> Option<(u64, bool)> {
    let unsure = Refusal::Unsure {
        faults: 1,
        before: 0,
    };
    let mut answered = 0;
    for ask in SCRIPT {
        let mut told = asked(store, ask, steps);
        if told == Err(unsure) {
            return if is_stopped(store, answered, steps) {
                Some((answered, true))
            } else {
                None
            };
        }
        if told == Err(Refusal::WriteFault) || told == Err(Refusal::ReadFault) {
            told = asked(store, ask, steps);
        }
        match told {
            Ok((place, _)) => answered = place,
            Err(_) => return None,
        }
    }
    Some((answered, false))
}

/// Whether all is as it should be where that call of the disk fails: what is told, and where the file is opened again. It tells
/// whether the call came.
fn fails_right<L: Ledger>(
    alloc: Global,
    call: u64,
    steps: &mut Steps<L>,
) -> Result<Option<bool>, AllocError> {
    let mut disk = script_file(alloc)?;
    disk.fail(call)?;
    let (ran, disk) = match open_store::<2, Memory, L>(alloc, Box::new(alloc, disk)?, steps) {
        Ok(mut store) => (run_failing(&mut store, steps), store.close().0),
        Err(unopened) => (Some((0, false)), unopened.disk),
    };
    let came = disk.read_faults() != 0 || disk.write_faults() != 0;
    let image = Fused::new(Box::into_inner(disk), 0).image(Keep::All)?;
    let found = found_on(alloc, image, steps)?;
    let (Some((answered, in_doubt)), Some((front, _))) = (ran, found) else {
        return Ok(None);
    };
    if is_right(answered, found) && (in_doubt || front == answered) {
        Ok(Some(came))
    } else {
        Ok(None)
    }
}

/// Lets calls in turn fail, up to the first that does not come: the first turn in which something is not as it should be, or 0
/// where there is none.
fn first_wrong<L: Ledger>(alloc: Global, blank: Blank) -> Result<u64, AllocError>
    requires name { blank.name ≡ L.name }
    requires parts { blank.parts ≡ L.parts }
    requires some { 0 < L.parts }
{
    let mut steps = Steps::<L>::new(blank);
    for turn in 1..ALL_CALLS {
        match fails_right(alloc, turn * EVERY_FAULT, &mut steps)? {
            Some(true) => {}
            Some(false) => return Ok(0),
            None => return Ok(turn),
        }
    }
    Ok(ALL_CALLS)
}

#[test]
fn a_store_goes_on_behind_a_fault(rt: HostRuntime) -> Result<(), Fail> {
    assert_eq!(rt; first_wrong::<Brand>(rt.alloc(), Blank::new(1))?, 0);
    Ok(())
}
