//! A root step of a new file, cut off at each call of the disk.
ghost use Rattle.std.specs.Prelude.{◌≡◌, ◌<◌};

use super::*;
use disk_memory::{Fused, Keep, Memory};
use disk_trait::Steps;
use file_making::make;
use file_state::{FileState, room_for_root};
use grid_types::Shape;
use recovery::survey_file;
use std::alloc::{AllocError, Global};
use std::marker::Brand;
use std::sync::ledger::{Blank, Ledger};
use std::test::*;

/// How many calls a root step of a new file makes: a page is read and synced, ten pages of a table area are written, and the
/// fields and the gate, each with its sync.
const CALLS: u64 = 16;

const SHAPE: Shape = Shape {
    k: 2,
    capacity: 2,
    pages: 8,
    slots: 1,
    boundaries: 600,
    cells: 1000,
};

/// The number of the root that is found in a file at place 0 without a batch, and 9 where no such file is found.
fn root_in<L: Ledger>(alloc: Global, disk: &mut Memory, steps: &mut Steps<L>) -> u64 {
    match survey_file::<2, Memory, L>(alloc, disk, steps) {
        Ok(found) => if (found.front == 0) & (found.used == [0, 0]) {
            found.root.number
        } else {
            9
        },
        Err(_) => 9,
    }
}

/// The number of the root in what a crash leaves of a root step of a new file that was cut off behind so many calls.
fn root_left<L: Ledger>(
    alloc: Global,
    calls: u64,
    keep: Keep,
    steps: &mut Steps<L>,
) -> Result<u64, AllocError> {
    let mut disk = Memory::new(alloc, 34)?;
    if make(&mut disk, &SHAPE).is_err() {
        return Ok(9);
    }
    let Ok(survey) = survey_file::<2, Memory, L>(alloc, &mut disk, steps) else {
        return Ok(9);
    };
    let mut state = FileState::open(alloc, survey.geometry, &survey.root, survey.used)?;
    let mut next = room_for_root(alloc, &survey.geometry)?;
    let mut fused = Fused::new(disk, calls);
    if state.number() == 0 {
        let _ = checkpoint(&mut fused, &mut state, &mut next, steps);
    }
    let mut image = fused.image(keep)?;
    Ok(root_in(alloc, &mut image, steps))
}

/// After how many calls the first root is left that is not the one that should be: root 1 from that many calls on, and root 0
/// before.
fn first_bad<L: Ledger>(
    alloc: Global,
    keep: Keep,
    from: u64,
    steps: &mut Steps<L>,
) -> Result<u64, AllocError> {
    for calls in 0..=CALLS {
        if root_left(alloc, calls, keep, steps)? != u64::from(from <= calls) {
            return Ok(calls);
        }
    }
    Ok(CALLS + 1)
}

fn try_all<L: Ledger>(alloc: Global, blank: Blank) -> Result<[u64; 3], AllocError>
    requires name { blank.name ≡ L.name }
    requires parts { blank.parts ≡ L.parts }
    requires some { 0 < L.parts }
{
    let mut steps = Steps::<L>::new(blank);
    let none = first_bad(alloc, Keep::None, CALLS, &mut steps)?;
    let changed = first_bad(alloc, Keep::Changed, CALLS, &mut steps)?;
    let all = first_bad(alloc, Keep::All, CALLS - 1, &mut steps)?;
    Ok([none, changed, all])
}

#[test]
fn a_root_step_is_cut_off(rt: HostRuntime) -> Result<(), Fail> {
    let first_bad = try_all::<Brand>(rt.alloc(), Blank::new(1))?;
    assert_eq!(rt; first_bad, [CALLS + 1, CALLS + 1, CALLS + 1]);
    Ok(())
}
