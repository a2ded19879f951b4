//! A disk in memory that tells all that it holds.
ghost use Rattle.std.specs.Prelude.{◌≡◌, ◌↔◌, Contains, IsErr, ◌+◌, ◌-◌, ◌^◌, min, ◌*◌, ◌%◌, ◌++◌, ◌∷◌, ◌≤◌, [], length, refl, IfOk, OnOk, OnErr};
ghost use Rattle.grid_types.specs.declared.sizes.TheConstants.{PAGE_BYTES};
ghost use Rattle.disk_trait.specs.Bay.{blank};
ghost use Rattle.disk_trait.specs.Causes.{HasCause};
ghost use Rattle.grid_types.specs.Pages.{page_of};
ghost use Rattle.disk_trait.specs.Disk.{Only, Agrees, Holds, InOnePage};
ghost use Rattle.disk_trait.specs.Moments.{After, Always};
ghost use Rattle.disk_memory.specs.Past.{contents_now};
ghost use Rattle.disk_memory.specs.Plans.{calls_ahead};

use crate::history::DiskHistory;
use crate::keep::Keep;
use crate::plan::Plan;
use crate::replay::overwrite;
use disk_trait::{Disk, DiskFailed, Steps};
use grid_types::PAGE_BYTES;
use std::alloc::{AllocError, Global};
use std::sync::ledger::Ledger;

/// A disk in memory, and the whole of what a crash may do to it.
///
/// Between two syncs a crash may leave anything in the ranges that were written since, also by writes that failed, and
/// leaves all else as it was. Reads give each write's bytes at once. A write that was chosen to fail leaves what reads
/// give as it was, and is always recorded: room for it is kept from the choice on. One whose record finds no memory fails
/// too, and changes nothing. A read or a sync fails only where it was chosen.
#[derive(Drop)]
pub struct Memory {
    history: DiskHistory,
    bytes: Vec<u8>,
    plan: Plan,
    reads: u64,
    writes: u64,
    ghost kept: { bytes.items ≡ (contents_now history.past).bytes },
    ghost room: { calls_ahead plan ≤ history.room },
}

impl Memory {
    ghost use Rattle.disk_memory.specs.Memories.{reads_of, dirty_of, extent_of, failed_reads, failed_writes, chosen_of, IsNewMemory, TellsSame, MayLeave};
    ghost use Rattle.disk_memory.specs.Fuses.{IsKept};

    /// A disk of that many pages, all zeros. It fails for want of memory, and where a `usize` can't count the bytes.
    pub fn new(alloc: Global, pages: u64) -> Result<Memory, AllocError>
        ensures extent { IfOk result (λ m. extent_of m ≡ pages * PAGE_BYTES) }
        ensures zeros { IfOk result (IsNewMemory (blank (pages * PAGE_BYTES))) }
    {
        match (pages as usize).checked_mul(PAGE_BYTES) {
            Some(size) => Memory::of(alloc, vec![in alloc; 0; size]?),
            None => Err(AllocError),
        }
    }

    /// A disk of whole pages with these bytes, all of them on the disk.
    pub fn of(alloc: Global, bytes: Vec<u8>) -> Result<Memory, AllocError>
        requires { length bytes.items % PAGE_BYTES ≡ 0 }
        ensures { IfOk result (IsNewMemory bytes.items) }
    {
        Memory::with_bytes(alloc, bytes)
    }

    /// A disk with these bytes, all of them on the disk.
    fn with_bytes(alloc: Global, bytes: Vec<u8>) -> Result<Memory, AllocError>
        ensures { IfOk result (IsNewMemory bytes.items) }
    {
        let history = DiskHistory::new(alloc, &bytes)?;
        Ok(Memory {
            history,
            bytes,
            plan: Plan::new(alloc),
            reads: 0,
            writes: 0,
        })
    }

    /// From now on that call fails, counted from 1 over reads, writes and syncs: 1 is the next of them. Where it is a write
    /// there is room for its record, which is wanted here and not then.
    pub fn fail(&mut self, call: u64) -> Result<(), AllocError>
        ensures same { TellsSame self.new self.old }
        ensures dirty { dirty_of self.new ≡ dirty_of self.old }
        ensures reads { failed_reads self.new ≡ failed_reads self.old }
        ensures writes { failed_writes self.new ≡ failed_writes self.old }
        ensures chosen { OnOk result (chosen_of self.new ≡ chosen_of self.old ++ call ∷ []) }
        ensures refused { OnErr result (chosen_of self.new ≡ chosen_of self.old) }
    {
        self.history.keep_room()?;
        self.plan.choose(call)
    }

    /// What reads give.
    pub fn bytes(&self) -> &[u8]
        ensures { result.now ≡ reads_of self.now }
    {
        &self.bytes
    }

    /// The disk that a crash now leaves, with all its bytes on the disk, and no failure counted or chosen.
    pub(crate) fn image(self, keep: Keep) -> Result<Memory, AllocError>
        ensures kept { IfOk result (λ m. IsKept keep self (reads_of m)) }
        ensures left { IfOk result (λ m. MayLeave self (reads_of m)) }
        ensures fresh { IfOk result (λ m. IsNewMemory (reads_of m) m) }
    {
        let alloc = *self.bytes.allocator();
        let bytes = match keep {
            Keep::All => self.bytes,
            Keep::None => self.history.on_disk()?,
            Keep::Changed => self.history.changed(&self.bytes)?,
        };
        Memory::with_bytes(alloc, bytes)
    }

    /// Counts a read that fails.
    pub(crate) fn refuse_read(&mut self) -> DiskFailed
        ensures counted { self.new ≡ record self.old {
          reads = min (self.old.reads + 1) (2 ^ 64 - 1);
        } }
        ensures later { self.old.reads ≤ self.new.reads }
    {
        self.reads = self.reads.saturating_add(1);
        DiskFailed
    }

    /// Counts a write or a sync that fails.
    pub(crate) fn refuse_write(&mut self) -> DiskFailed
        ensures counted { self.new ≡ record self.old {
          writes = min (self.old.writes + 1) (2 ^ 64 - 1);
        } }
        ensures later { self.old.writes ≤ self.new.writes }
    {
        self.writes = self.writes.saturating_add(1);
        DiskFailed
    }

    /// The same disk, with no failures counted.
    pub(crate) fn unfailed(self) -> Memory
        ensures { result ≡ record self { reads = 0; writes = 0 } }
    {
        Memory {
            history: self.history,
            bytes: self.bytes,
            plan: self.plan,
            reads: 0,
            writes: 0,
        }
    }
}

impl Disk for Memory {
    ghost use Rattle.disk_memory.specs.Plans.{after_a_call};
    ghost use Rattle.disk_memory.specs.Memories.{is_told, reads_of, extent_of, MayLeave, moment_of, LeftSince, failed_reads, failed_writes, chosen_of, TimeGoesOn, HoldsSame, CountsRead, CountsWrite, AddsRange, ClearsRanges};
    ghost use Rattle.disk_memory.specs.PastLaws.{leaves_itself, had_been_now, only_last};

    ghost honest = { is_told };

    ghost extent = { extent_of };

    ghost seen = { reads_of };

    ghost may_leave = { MayLeave };

    ghost moment = { moment_of };

    ghost left_since = { LeftSince };

    ghost read_count = { failed_reads };

    ghost write_count = { failed_writes };

    ghost whole = { λ m h. refl };

    ghost seen_now = { λ m h. leaves_itself m.history.past };

    ghost counts_now = { λ m t c h le now. had_been_now m.history.past t c le now };

    ghost only_now = { λ m c h left. only_last m.history.past c left };

    fn size(&self) -> u64 {
        self.bytes.len() as u64
    }

    fn read<L: Ledger>(
        &mut self,
        page: u64,
        out: &mut [u8; PAGE_BYTES],
        steps: &mut Steps<L>,
    ) -> Result<(), DiskFailed>
        requires { page * PAGE_BYTES + PAGE_BYTES ≤ extent_of self.old }
        ensures ticks { steps.new ≡ steps.old + 1 }
        ensures bytes { OnOk result (out.new ≡ page_of page (reads_of self.old)) }
        ensures same { HoldsSame self.old self.new }
        ensures time { TimeGoesOn self.old self.new }
        ensures cause { HasCause (failed_reads self.old) (failed_reads self.new) result }

        // Only a read that was chosen fails.
        ensures fails { IsErr result ↔ Contains (chosen_of self.old) 1 }
        ensures counts { CountsRead self.old self.new result }
        ensures nearer { chosen_of self.new ≡ after_a_call (chosen_of self.old) }
    {
        steps.tick();
        if self.plan.is_next_chosen() {
            return Err(self.refuse_read());
        }
        let at = page as usize * PAGE_BYTES;
        out.copy_from_slice(&self.bytes[at..at + PAGE_BYTES]);
        Ok(())
    }

    fn write(&mut self, at: u64, bytes: &[u8]) -> Result<(), DiskFailed>
        requires { InOnePage at (length bytes.now) (extent_of self.old) }
        ensures written { OnOk result (Holds (reads_of self.old) at bytes.now (reads_of self.new)) }
        ensures outside { Agrees at (length bytes.now) (reads_of self.old) (reads_of self.new) }
        ensures crash { Always (MayLeave self.new)
            (After (Agrees at (length bytes.now)) (MayLeave self.old)) }
        ensures time { TimeGoesOn self.old self.new }
        ensures cause { HasCause (failed_writes self.old) (failed_writes self.new) result }

        // A write that was chosen fails, and may be torn; any other fails only for want of memory, and adds no range.
        ensures fails { Contains (chosen_of self.old) 1 → IsErr result }
        ensures unwritten { OnErr result (reads_of self.new ≡ reads_of self.old) }
        ensures counts { CountsWrite self.old self.new result }
        ensures nearer { chosen_of self.new ≡ after_a_call (chosen_of self.old) }
        ensures ranges { AddsRange (Contains (chosen_of self.old) 1) at (length bytes.now)
            self.old self.new result }
    {
        let at = at as usize;
        if self.plan.is_next_chosen() {
            self.history.record_failed_write(at, bytes.len());
            return Err(self.refuse_write());
        }
        match self.history.record_write(at, bytes) {
            Ok(()) => {
                overwrite(&mut self.bytes, at, bytes);
                Ok(())
            }
            Err(AllocError) => Err(self.refuse_write()),
        }
    }

    fn sync(&mut self) -> Result<(), DiskFailed>
        ensures durable { OnOk result (Only (reads_of self.old) (MayLeave self.new)) }
        ensures seen { reads_of self.new ≡ reads_of self.old }
        ensures crash { Always (MayLeave self.new) (MayLeave self.old) }
        ensures stays { OnErr result (Always (MayLeave self.old) (MayLeave self.new)) }
        ensures time { TimeGoesOn self.old self.new }
        ensures cause { HasCause (failed_writes self.old) (failed_writes self.new) result }

        // Only a sync that was chosen fails: none wants memory.
        ensures fails { IsErr result ↔ Contains (chosen_of self.old) 1 }
        ensures counts { CountsWrite self.old self.new result }
        ensures nearer { chosen_of self.new ≡ after_a_call (chosen_of self.old) }
        ensures ranges { ClearsRanges self.old self.new result }
    {
        if self.plan.is_next_chosen() {
            return Err(self.refuse_write());
        }
        self.history.record_sync();
        Ok(())
    }

    fn read_faults(&self) -> u64 {
        self.reads
    }

    fn write_faults(&self) -> u64 {
        self.writes
    }
}
