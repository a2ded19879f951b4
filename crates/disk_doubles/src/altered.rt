//! A disk of which one read is altered.
ghost use Rattle.std.specs.Prelude.{◌≡◌, ◌≢◌, ◌<◌, ◌+◌, ◌*◌, ◌≤◌, false, length, IsTrue, OnOk, OnErr};
ghost use Rattle.std.proofs.lemmas.Bool.{false≢true};
ghost use Rattle.grid_types.specs.declared.sizes.TheConstants.{PAGE_BYTES};
ghost use Rattle.grid_types.specs.Pages.{page_of};
ghost use Rattle.disk_trait.specs.Causes.{HasCause};
ghost use Rattle.disk_trait.specs.Disk.{Agrees, Holds, InOnePage, Stays};
ghost use Rattle.disk_trait.specs.Calls.{OnlyReads, Changes, IsSynced};

use crate::turning::Turn;
use disk_trait::{Disk, DiskFailed, Steps};
use grid_types::PAGE_BYTES;
use std::sync::ledger::Ledger;

/// A disk over another one. One read gives some bits of one byte turned; the disk below is not touched by that, and any
/// other read gives what is there. So it never tells its content, and no clause says what reads of it give as a disk:
/// its calls say here what they come to on the disk below.
#[derive(Drop)]
pub struct Altered<D: Disk> {
    disk: D,
    chosen: u64,
    turn: Turn,
    is_altered: bool,
}

impl<D: Disk> Altered<D> {
    ghost use Rattle.disk_doubles.specs.Altering.{disk_below, chosen_read, altered_place, turned_bits, has_altered};

    /// The disk, of which that read is altered, counted from 1 over all reads, also those that fail: of the byte of the page
    /// at that place these bits are turned. A chosen read of 0 is none; one that fails is not altered, and none in its place.
    pub fn new(disk: D, read: u64, at: usize, bits: u8) -> Altered<D>
        requires inside { at < PAGE_BYTES }
        requires some { bits ≢ 0 }
        ensures disk { disk_below result ≡ disk }
        ensures chosen { chosen_read result ≡ read }
        ensures place { altered_place result ≡ at }
        ensures bits { turned_bits result ≡ bits }
        ensures altered { has_altered result ≡ false }
    {
        Altered {
            disk,
            chosen: read,
            turn: Turn { at, bits },
            is_altered: false,
        }
    }

    /// Whether the chosen read was made and has given what was not there.
    pub fn has_altered(&self) -> bool
        ensures { result ≡ has_altered self.now }
    {
        self.is_altered
    }

    /// The disk below.
    pub fn into_disk(self) -> D
        ensures { result ≡ disk_below self }
    {
        self.disk
    }
}

impl<D: Disk> Disk for Altered<D> {
    ghost use Rattle.disk_doubles.specs.Altering.{disk_below, page_given, AltersSame, CountsToChosen};

    ghost honest = { λ a. false };

    ghost extent = { λ a. D.extent (disk_below a) };

    ghost seen = { λ a. D.seen (disk_below a) };

    ghost may_leave = { λ a. D.may_leave (disk_below a) };

    ghost moment = { λ a. D.moment (disk_below a) };

    ghost left_since = { λ a. D.left_since (disk_below a) };

    ghost read_count = { λ a. D.read_count (disk_below a) };

    ghost write_count = { λ a. D.write_count (disk_below a) };

    ghost whole = { λ a h. absurd (false≢true h) };

    ghost seen_now = { λ a h. absurd (false≢true h) };

    ghost counts_now = { λ a t c h le now. absurd (false≢true h) };

    ghost only_now = { λ a c h left. absurd (false≢true h) };

    fn size(&self) -> u64 {
        self.disk.size()
    }

    fn read<L: Ledger>(
        &mut self,
        page: u64,
        out: &mut [u8; PAGE_BYTES],
        steps: &mut Steps<L>,
    ) -> Result<(), DiskFailed>
        requires { page * PAGE_BYTES + PAGE_BYTES ≤ D.extent (disk_below self.old) }
        ensures ticks { steps.new ≡ steps.old + 1 }
        ensures given { IsTrue (D.honest (disk_below self.old)) → OnOk result
            (out.new ≡ page_given self.old (page_of page (D.seen (disk_below self.old)))) }
        ensures below { OnlyReads D.Disk (disk_below self.old) (disk_below self.new) }
        ensures cause { HasCause (D.read_count (disk_below self.old))
            (D.read_count (disk_below self.new)) result }
        ensures counts { CountsToChosen self.old self.new result }
    {
        let is_chosen = self.chosen == 1;
        self.chosen = self.chosen.saturating_sub(1);
        self.disk.read(page, out, steps)?;
        if is_chosen {
            self.turn.make(out);
            self.is_altered = true;
        }
        Ok(())
    }

    fn write(&mut self, at: u64, bytes: &[u8]) -> Result<(), DiskFailed>
        requires { InOnePage at (length bytes.now) (D.extent (disk_below self.old)) }
        ensures written { IsTrue (D.honest (disk_below self.old)) → OnOk result
            (Holds (D.seen (disk_below self.old)) at bytes.now (D.seen (disk_below self.new))) }
        ensures below { Changes D.Disk (Agrees at (length bytes.now))
            (disk_below self.old) (disk_below self.new) }
        ensures cause { HasCause (D.write_count (disk_below self.old))
            (D.write_count (disk_below self.new)) result }
        ensures same { AltersSame self.old self.new }
    {
        self.disk.write(at, bytes)
    }

    fn sync(&mut self) -> Result<(), DiskFailed>
        ensures durable { OnOk result (IsSynced D.Disk (disk_below self.new)) }
        ensures below { Changes D.Disk Stays (disk_below self.old) (disk_below self.new) }
        ensures cause { HasCause (D.write_count (disk_below self.old))
            (D.write_count (disk_below self.new)) result }
        ensures same { AltersSame self.old self.new }
    {
        self.disk.sync()
    }

    fn read_faults(&self) -> u64 {
        self.disk.read_faults()
    }

    fn write_faults(&self) -> u64 {
        self.disk.write_faults()
    }
}
