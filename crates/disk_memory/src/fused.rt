//! A disk in memory that stops.
ghost use Rattle.std.specs.Prelude.{◌≡◌, ◌≢◌, ◌↔◌, ◌⊎◌, Contains, IsErr, IsTrue, ◌+◌, ◌-◌, ◌*◌, ◌≤◌, length, refl, IfOk, OnOk, OnErr};
ghost use Rattle.grid_types.specs.declared.sizes.TheConstants.{PAGE_BYTES};
ghost use Rattle.disk_trait.specs.Causes.{HasCause};
ghost use Rattle.grid_types.specs.Pages.{page_of};
ghost use Rattle.disk_trait.specs.Disk.{Only, Agrees, Holds, InOnePage};
ghost use Rattle.disk_trait.specs.Moments.{After, Always};

use crate::keep::Keep;
use crate::memory::Memory;
use disk_trait::{Disk, DiskFailed, Steps};
use grid_types::PAGE_BYTES;
use std::alloc::AllocError;
use std::sync::ledger::Ledger;

/// A disk in memory that makes some calls, and fails each one behind them: so a run is cut off at any call of it, and
/// goes on from what a crash leaves there. A call that it does not make touches no byte.
#[derive(Drop)]
pub struct Fused {
    disk: Memory,
    left: u64,
}

impl Fused {
    ghost use Rattle.disk_memory.specs.Memories.{reads_of, IsNewMemory, MayLeave};
    ghost use Rattle.disk_memory.specs.Fuses.{disk_of, calls_left, IsKept};

    /// The disk, that makes so many more reads, writes and syncs.
    pub fn new(disk: Memory, calls: u64) -> Fused
        ensures disk { disk_of result ≡ disk }
        ensures left { calls_left result ≡ calls }
    {
        Fused { disk, left: calls }
    }

    /// The disk that a crash now leaves. All its bytes are on the disk, and no failure is counted or chosen.
    pub fn image(self, keep: Keep) -> Result<Memory, AllocError>
        ensures kept { IfOk result (λ m. IsKept keep (disk_of self) (reads_of m)) }
        ensures left { IfOk result (λ m. MayLeave (disk_of self) (reads_of m)) }
        ensures fresh { IfOk result (λ m. IsNewMemory (reads_of m) m) }
    {
        self.disk.image(keep)
    }
}

/// Whether one more call is made.
fn is_made(left: &mut u64) -> bool
    ensures made { IsTrue result ↔ (left.old ≢ 0) }
    ensures left { left.new ≡ left.old - 1 }
{
    if *left == 0 {
        return false;
    }
    *left -= 1;
    true
}

impl Disk for Fused {
    ghost use Rattle.disk_memory.specs.Memories.{is_told, reads_of, extent_of, MayLeave, moment_of, LeftSince, failed_reads, failed_writes, chosen_of, TimeGoesOn, HoldsSame, CountsRead, CountsWrite, AddsRange, ClearsRanges};
    ghost use Rattle.disk_memory.specs.Fuses.{disk_of, calls_left, LetsOneLess};
    ghost use Rattle.disk_memory.specs.PastLaws.{leaves_itself, had_been_now, only_last};

    ghost honest = { λ f. is_told (disk_of f) };

    ghost extent = { λ f. extent_of (disk_of f) };

    ghost seen = { λ f. reads_of (disk_of f) };

    ghost may_leave = { λ f. MayLeave (disk_of f) };

    ghost moment = { λ f. moment_of (disk_of f) };

    ghost left_since = { λ f. LeftSince (disk_of f) };

    ghost read_count = { λ f. failed_reads (disk_of f) };

    ghost write_count = { λ f. failed_writes (disk_of f) };

    ghost whole = { λ f h. refl };

    ghost seen_now = { λ f h. leaves_itself (disk_of f).history.past };

    ghost counts_now = { λ f t c h le now. had_been_now (disk_of f).history.past t c le now };

    ghost only_now = { λ f c h left. only_last (disk_of f).history.past c left };

    fn size(&self) -> u64 {
        self.disk.size()
    }

    fn read<L: Ledger>(
        &mut self,
        page: u64,
        out: &mut [u8; PAGE_BYTES],
        steps: &mut Steps<L>,
    ) -> Result<(), DiskFailed>
        requires { page * PAGE_BYTES + PAGE_BYTES ≤ extent_of (disk_of self.old) }
        ensures ticks { steps.new ≡ steps.old + 1 }
        ensures bytes { OnOk result (out.new ≡ page_of page (reads_of (disk_of self.old))) }
        ensures same { HoldsSame (disk_of self.old) (disk_of self.new) }
        ensures time { TimeGoesOn (disk_of self.old) (disk_of self.new) }
        ensures cause { HasCause (failed_reads (disk_of self.old))
            (failed_reads (disk_of self.new)) result }

        // A read fails where the fuse has stopped the disk or where it was chosen. One that is not made changes nothing.
        ensures fails { IsErr result
            ↔ ((calls_left self.old ≡ 0) ⊎ Contains (chosen_of (disk_of self.old)) 1) }
        ensures counts { CountsRead (disk_of self.old) (disk_of self.new) result }
        ensures fuse { LetsOneLess self.old self.new }
    {
        if !is_made(&mut self.left) {
            steps.tick();
            return Err(self.disk.refuse_read());
        }
        self.disk.read(page, out, steps)
    }

    fn write(&mut self, at: u64, bytes: &[u8]) -> Result<(), DiskFailed>
        requires { InOnePage at (length bytes.now) (extent_of (disk_of self.old)) }
        ensures written { OnOk result
            (Holds (reads_of (disk_of self.old)) at bytes.now (reads_of (disk_of self.new))) }
        ensures outside { Agrees at (length bytes.now)
            (reads_of (disk_of self.old)) (reads_of (disk_of self.new)) }
        ensures crash { Always (MayLeave (disk_of self.new))
            (After (Agrees at (length bytes.now)) (MayLeave (disk_of self.old))) }
        ensures time { TimeGoesOn (disk_of self.old) (disk_of self.new) }
        ensures cause { HasCause (failed_writes (disk_of self.old))
            (failed_writes (disk_of self.new)) result }

        // A write fails where the fuse has stopped the disk, where it was chosen, or for want of memory. One that is not
        // made changes nothing; one that is made and was chosen may be torn.
        ensures fails { (calls_left self.old ≡ 0) ⊎ Contains (chosen_of (disk_of self.old)) 1
            → IsErr result }
        ensures unwritten { OnErr result
            (reads_of (disk_of self.new) ≡ reads_of (disk_of self.old)) }
        ensures counts { CountsWrite (disk_of self.old) (disk_of self.new) result }
        ensures ranges { AddsRange
            ((calls_left self.old ≢ 0) × Contains (chosen_of (disk_of self.old)) 1)
            at (length bytes.now) (disk_of self.old) (disk_of self.new) result }
        ensures fuse { LetsOneLess self.old self.new }
    {
        if !is_made(&mut self.left) {
            return Err(self.disk.refuse_write());
        }
        self.disk.write(at, bytes)
    }

    fn sync(&mut self) -> Result<(), DiskFailed>
        ensures durable { OnOk result
            (Only (reads_of (disk_of self.old)) (MayLeave (disk_of self.new))) }
        ensures seen { reads_of (disk_of self.new) ≡ reads_of (disk_of self.old) }
        ensures crash { Always (MayLeave (disk_of self.new)) (MayLeave (disk_of self.old)) }
        ensures stays { OnErr result
            (Always (MayLeave (disk_of self.old)) (MayLeave (disk_of self.new))) }
        ensures time { TimeGoesOn (disk_of self.old) (disk_of self.new) }
        ensures cause { HasCause (failed_writes (disk_of self.old))
            (failed_writes (disk_of self.new)) result }

        // A sync fails where the fuse has stopped the disk or where it was chosen. One that is not made changes nothing.
        ensures fails { IsErr result
            ↔ ((calls_left self.old ≡ 0) ⊎ Contains (chosen_of (disk_of self.old)) 1) }
        ensures counts { CountsWrite (disk_of self.old) (disk_of self.new) result }
        ensures ranges { ClearsRanges (disk_of self.old) (disk_of self.new) result }
        ensures fuse { LetsOneLess self.old self.new }
    {
        if !is_made(&mut self.left) {
            return Err(self.disk.refuse_write());
        }
        self.disk.sync()
    }

    fn read_faults(&self) -> u64 {
        self.disk.read_faults()
    }

    fn write_faults(&self) -> u64 {
        self.disk.write_faults()
    }
}
