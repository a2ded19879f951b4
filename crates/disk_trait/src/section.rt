//! A page that is read or written, a sync, and a write that is on the disk when it is done: what each leaves at each of
//! its moments.
ghost use Rattle.std.specs.Prelude.{◌≡◌, ◌≤◌, ◌+◌, ◌*◌, IsTrue, length, OnOk, OnErr};
ghost use Rattle.grid_types.specs.declared.refusal.Refusal.TheVariants.{ReadFault};
ghost use Rattle.grid_types.specs.declared.sizes.TheConstants.{PAGE_BYTES};
ghost use Rattle.grid_types.specs.Pages.{page_of};
ghost use Rattle.disk_trait.specs.Causes.{HasCause};
ghost use Rattle.disk_trait.specs.Disk.{Agrees, Holds, InOnePage, Stays};
ghost use Rattle.disk_trait.specs.Calls.{OnlyReads, Changes, IsSynced, HasCauses};

use crate::{Disk, DiskFailed, Steps};
use grid_types::{PAGE_BYTES, Refusal};
use std::sync::ledger::Ledger;

/// Reads a page, as one step. At each moment of it a crash leaves what it might have left before. After a failure `out`
/// holds anything.
pub fn read_page<D: Disk, L: Ledger>(
    disk: &mut D,
    page: u64,
    out: &mut [u8; PAGE_BYTES],
    steps: &mut Steps<L>,
) -> Result<(), Refusal>
    requires { page * PAGE_BYTES + PAGE_BYTES ≤ D.extent disk.old }
    ensures ticks { steps.new ≡ steps.old + 1 }
    ensures bytes { IsTrue (D.honest disk.old)
        → OnOk result (out.new ≡ page_of page (D.seen disk.old)) }
    ensures same { OnlyReads D.Disk disk.old disk.new }
    ensures causes { HasCauses D.Disk (λ e. e ≡ ReadFault) disk.old disk.new result }
{
    disk.read(page, out, steps).map_err(|_| Refusal::ReadFault)
}

/// Writes a whole page, and does not sync: until the next sync that succeeds a crash may leave anything in this page, also
/// where the write fails. At each moment of it a crash leaves what it might have left before, but for this page.
pub fn write_page<D: Disk>(
    disk: &mut D,
    page: u64,
    bytes: &[u8; PAGE_BYTES],
) -> Result<(), DiskFailed>
    requires { page * PAGE_BYTES + PAGE_BYTES ≤ D.extent disk.old }
    ensures written { IsTrue (D.honest disk.old)
        → OnOk result (page_of page (D.seen disk.new) ≡ bytes.now) }
    ensures changes { Changes D.Disk (Agrees (page * PAGE_BYTES) PAGE_BYTES) disk.old disk.new }
    ensures cause { HasCause (D.write_count disk.old) (D.write_count disk.new) result }
{
    // A `u64` counts the bytes of a disk, so it counts those before the page.
    let _size = disk.size();
    disk.write(page * PAGE_BYTES as u64, bytes)
}

/// Puts on the disk all that was written. At each moment of it a crash leaves what it might have left before, and where it
/// fails still each of that.
pub fn sync_all<D: Disk>(disk: &mut D) -> Result<(), DiskFailed>
    ensures durable { OnOk result (IsSynced D.Disk disk.new) }
    ensures changes { Changes D.Disk Stays disk.old disk.new }
    ensures same { OnErr result (OnlyReads D.Disk disk.old disk.new) }
    ensures cause { HasCause (D.write_count disk.old) (D.write_count disk.new) result }
{
    disk.sync()
}

/// Writes the bytes and syncs. At each moment of it a crash leaves what it might have left before, but for these bytes.
pub fn write_through<D: Disk>(disk: &mut D, at: u64, bytes: &[u8]) -> Result<(), DiskFailed>
    requires { InOnePage at (length bytes.now) (D.extent disk.old) }
    ensures written { IsTrue (D.honest disk.old)
        → OnOk result (Holds (D.seen disk.old) at bytes.now (D.seen disk.new)) }
    ensures durable { OnOk result (IsSynced D.Disk disk.new) }
    ensures changes { Changes D.Disk (Agrees at (length bytes.now)) disk.old disk.new }
    ensures cause { HasCause (D.write_count disk.old) (D.write_count disk.new) result }
{
    disk.write(at, bytes)?;
    sync_all(disk)
}
