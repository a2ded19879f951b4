//! The work of a run over the disk of its file: the shape is read, then the script; the file is opened, the lines are answered
//! over it, and the replies are printed.
ghost use Rattle.std.specs.Prelude.{◌≡◌, ◌≤◌, ◌<◌};
ghost use Rattle.grid_shell.specs.Runs.{WorksLines, RunsAt, RunsDisk, HasPresent};

use crate::ending::Ending;
use crate::printing::print_session;
use crate::script::read_lines;
use disk_trait::{Disk, Sink, Source, Steps};
use file_opening::Unopened;
use file_sessions::run_session;
use grid_types::Line;
use recovery::read_shape;
use std::alloc::Global;
use std::marker::Brand;
use std::sync::ledger::{Blank, Ledger};

/// A disk that was worked over, and how that ended.
#[derive(Drop)]
pub struct Worked<D: Disk> {
    pub disk: D,
    pub ending: Ending,
}

/// Answers the lines of a script over a file, and prints. Nothing is printed before the last one was answered.
fn answer_lines<const K: usize, D: Disk, O: Sink, L: Ledger>(
    alloc: Global,
    disk: Box<D>,
    lines: &[Line<K>],
    out: &mut O,
    steps: &mut Steps<L>,
) -> Worked<D>
    requires { K ≤ 4 }
    ensures { WorksLines D.Disk O.Sink lines.now disk.value result.disk
        (out.old, out.new) result.ending }
{
    match run_session(alloc, disk, lines, steps) {
        Ok(session) => {
            let ending = print_session(out, session.replies.as_slice(), session.front);
            Worked {
                disk: Box::into_inner(session.disk),
                ending,
            }
        }
        Err(Unopened { refusal, disk }) => Worked {
            disk: Box::into_inner(disk),
            ending: Ending::unopened(refusal),
        },
    }
}

/// Runs the script of the input over a file of K attributes.
fn run_at<const K: usize, D: Disk, S: Source, O: Sink, L: Ledger>(
    alloc: Global,
    disk: Box<D>,
    input: &mut S,
    out: &mut O,
    steps: &mut Steps<L>,
) -> Worked<D>
    requires some { 1 ≤ K }
    requires few { K ≤ 4 }
    ensures { RunsAt K D.Disk S.Source O.Sink disk.value result.disk
        (input.old, input.new) (out.old, out.new) result.ending }
{
    let script = match read_lines::<K, S>(alloc, input) {
        Ok(script) => script,
        Err(ending) => {
            return Worked {
                disk: Box::into_inner(disk),
                ending,
            };
        }
    };
    answer_lines(alloc, disk, script.lines(), out, steps)
}

/// A call of a function at the number of attributes that a file has.
macro_rules! at_attributes {
    ($k:expr, $call:ident, $($argument:expr),*) => {
        match $k {
            1 => $call::<1, _, _, _, _>($($argument),*),
            2 => $call::<2, _, _, _, _>($($argument),*),
            3 => $call::<3, _, _, _, _>($($argument),*),
            _ => $call::<4, _, _, _, _>($($argument),*),
        }
    };
}

/// Reads the shape of a file, and runs the script of the input over it.
fn run_shaped<D: Disk, S: Source, O: Sink, L: Ledger>(
    alloc: Global,
    disk: Box<D>,
    input: &mut S,
    out: &mut O,
    blank: Blank,
) -> Worked<D>
    requires name { blank.name ≡ L.name }
    requires parts { blank.parts ≡ L.parts }
    requires some { 0 < L.parts }
    ensures { RunsDisk D.Disk S.Source O.Sink disk.value result.disk
        (input.old, input.new) (out.old, out.new) result.ending }
{
    let mut disk = disk;
    let mut steps = Steps::<L>::new(blank);
    let geometry = match read_shape(&mut *disk, &mut steps) {
        Ok(geometry) => geometry,
        Err(refusal) => {
            return Worked {
                disk: Box::into_inner(disk),
                ending: Ending::unopened(refusal),
            };
        }
    };
    at_attributes!(
        geometry.shape.k,
        run_at,
        alloc,
        disk,
        input,
        out,
        &mut steps
    )
}

/// Runs the script of the input over the file on a disk.
pub fn run_disk<D: Disk, S: Source, O: Sink>(
    alloc: Global,
    disk: D,
    input: &mut S,
    out: &mut O,
) -> Worked<D>
    ensures { RunsDisk D.Disk S.Source O.Sink disk result.disk
        (input.old, input.new) (out.old, out.new) result.ending }
{
    match Box::new(alloc, disk) {
        Ok(disk) => run_shaped::<D, S, O, Brand>(alloc, disk, input, out, Blank::new(1)),
        Err(failed) => Worked {
            disk: failed.value,
            ending: Ending::Memory,
        },
    }
}

/// The law of the moment: what a crash at the present moment leaves is what a crash now may leave.
pub fn present_law<D: Disk>()
    ensures { HasPresent D.Disk }
{}
