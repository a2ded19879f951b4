//! A header page is closed before another root is written on it.
ghost use Rattle.std.specs.Prelude.{◌≡◌, ◌≢◌, ◌≤◌, ◌+◌, ◌*◌, ◌%◌, Option, IsTrue, OnOk, OnErr, slice_index};
ghost use Rattle.grid_types.specs.declared.sizes.TheConstants.{PAGE_BYTES};
ghost use Rattle.grid_types.specs.Shapes.{file_pages, header_page};
ghost use Rattle.grid_model.specs.Images.{header_gate};
ghost use Rattle.grid_model.specs.Roots.{WholeRoot};
ghost use Rattle.disk_trait.specs.Calls.{Changes, IsSynced, HasCauses};
ghost use Rattle.disk_trait.specs.Causes.{HasCause};
ghost use Rattle.disk_trait.specs.Disk.{Agrees, Stays};
ghost use Rattle.file_roots.specs.Places.{GateAlone};
ghost use Rattle.file_roots.specs.Writing.{closed_gate, MayBeWritten, Awaits, StaysReplaceable};
ghost use Rattle.file_roots.specs.Refusals.{MayRefuseClosing};

use crate::header::GATE;
use disk_trait::{Disk, DiskFailed, Steps, read_page, write_through};
use grid_types::{Geometry, PAGE_BYTES, Refusal};
use std::sync::ledger::Ledger;

/// Writes 0 on a gate that reads as open, and syncs. A gate that reads as closed is not written, since a crash during the
/// write could leave it open.
fn shut<D: Disk>(disk: &mut D, at: u64, gate: u8) -> Result<(), DiskFailed>
    requires size { at + 1 ≤ D.extent disk.old }
    ensures closed { IsTrue (D.honest disk.old)
        → gate ≡ slice_index (D.seen disk.old) at
        → OnOk result (slice_index (D.seen disk.new) at ≡ closed_gate gate) }
    ensures durable { OnOk result (IsSynced D.Disk disk.new) }
    ensures changes { Changes D.Disk (Agrees at 1) disk.old disk.new }
    ensures unwritten { gate ≢ 1 → Changes D.Disk Stays disk.old disk.new }
    ensures cause { HasCause (D.write_count disk.old) (D.write_count disk.new) result }
{
    if gate == 1 {
        return write_through(disk, at, &[0]);
    }
    disk.sync()
}

/// Closes the gate on the header page of a root with this number, and syncs. A gate that reads as closed is left as it is,
/// whatever its value, since a crash during the write could leave it open. Then a root may be written there.
pub fn close_root<D: Disk, L: Ledger>(
    disk: &mut D,
    geometry: &Geometry,
    number: u64,
    steps: &mut Steps<L>,
) -> Result<(), Refusal>
    requires { file_pages geometry.now.shape * PAGE_BYTES ≤ D.extent disk.old }
    ensures awaits { (old tried : Option WholeRoot)
        → MayBeWritten D.Disk geometry.now.shape number old tried disk.old
        → OnOk result (Awaits D.Disk geometry.now.shape number old disk.new) }
    ensures replaceable { (old tried : Option WholeRoot)
        → MayBeWritten D.Disk geometry.now.shape number old tried disk.old
        → StaysReplaceable D.Disk geometry.now.shape number old tried disk.old disk.new }
    ensures again { (old tried : Option WholeRoot)
        → MayBeWritten D.Disk geometry.now.shape number old tried disk.old
        → OnErr result (MayBeWritten D.Disk geometry.now.shape number old tried disk.new) }
    ensures closed { IsTrue (D.honest disk.old)
        → OnOk result (header_gate (D.seen disk.new) (header_page number)
        ≡ closed_gate (header_gate (D.seen disk.old) (header_page number))) }
    ensures durable { OnOk result (IsSynced D.Disk disk.new) }
    ensures changes { Changes D.Disk (GateAlone number) disk.old disk.new }
    ensures unwritten { header_gate (D.seen disk.old) (header_page number) ≢ 1
        → Changes D.Disk Stays disk.old disk.new }
    ensures causes { HasCauses D.Disk MayRefuseClosing disk.old disk.new result }
    ensures ticks { steps.new ≡ steps.old + 1 }
{
    let header = number % 2;
    let mut page = [0; PAGE_BYTES];
    read_page(disk, header, &mut page, steps)?;
    let at = header * PAGE_BYTES as u64 + GATE;
    shut(disk, at, page[GATE as usize]).map_err(|_| Refusal::WriteFault)
}
