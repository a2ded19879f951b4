//! The commands on the file of a name: it is made, or a script is run on it.
ghost use Rattle.std.specs.Prelude.{◌≡◌, IsTrue};
ghost use Rattle.grid_types.specs.Shapes.{is_shape};
ghost use Rattle.disk_trait.specs.Bay.{SameElsewhere};
ghost use Rattle.grid_shell.specs.Files.{IsPutBack, RunsFile, MakesFile};

use crate::ending::Ending;
use crate::printing::print_made;
use crate::work::run_disk;
use disk_trait::{Bay, BayFailed, Sink, Source};
use file_commands::{MakeFault, make_file};
use grid_types::Shape;
use std::alloc::Global;

/// Makes a file of this shape under a name, and prints how many pages it has.
pub fn make<B: Bay, O: Sink>(bay: &mut B, name: &str, shape: Shape, out: &mut O) -> Ending
    requires { IsTrue (is_shape shape) }
    ensures makes { MakesFile B.Bay B.Disk.Disk O.Sink name.now shape
        (bay.old, bay.new) (out.old, out.new) result }
    ensures elsewhere { SameElsewhere B.tells B.place name.now bay.old bay.new }
{
    match make_file(bay, name, shape) {
        Ok(pages) => print_made(out, pages),
        Err(MakeFault::Device) => Ending::Device,
        Err(MakeFault::BadShape) => unreachable!(),
    }
}

/// Puts the disk back under its name. A bay that fails in it, or counts a fault, is a failed device.
fn put_back<B: Bay>(bay: &mut B, name: &str, disk: B::Disk, ending: Ending) -> Ending
    ensures back { IsPutBack B.Bay B.Disk.Disk name.now disk (bay.old, bay.new) ending result }
    ensures elsewhere { SameElsewhere B.tells B.place name.now bay.old bay.new }
{
    let before = bay.faults();
    match bay.close(name, disk) {
        Ok(()) if bay.faults() == before => ending,
        _ => ending.with_fault(),
    }
}

/// Runs the script of the input over the file of a name, and puts the file back.
pub fn run<B: Bay, S: Source, O: Sink>(
    alloc: Global,
    bay: &mut B,
    name: &str,
    input: &mut S,
    out: &mut O,
) -> Ending
    ensures runs { RunsFile B.Bay B.Disk.Disk S.Source O.Sink name.now
        (bay.old, bay.new) (input.old, input.new) (out.old, out.new) result }
    ensures elsewhere { SameElsewhere B.tells B.place name.now bay.old bay.new }
{
    let before = bay.faults();
    let disk = match bay.open(name) {
        Ok(disk) => disk,
        Err(BayFailed) => return Ending::Device,
    };
    if bay.faults() != before {
        return put_back(bay, name, disk, Ending::Device);
    }
    let worked = run_disk(alloc, disk, input, out);
    put_back(bay, name, worked.disk, worked.ending)
}
