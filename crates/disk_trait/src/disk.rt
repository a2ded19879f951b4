//! A disk, as its callers see it.
ghost use Rattle.std.specs.Prelude.{◌≡◌, ◌+◌, ◌*◌, ◌≤◌, Bool, List, ℕ, IsTrue, length, OnOk, OnErr};
ghost use Rattle.grid_types.specs.declared.sizes.TheConstants.{PAGE_BYTES};
ghost use Rattle.disk_trait.specs.Causes.{HasCause};
ghost use Rattle.grid_types.specs.Pages.{page_of};
ghost use Rattle.disk_trait.specs.Disk.{Only, Agrees, Holds, InOnePage};
ghost use Rattle.disk_trait.specs.Moments.{After, Always, Elapses, SameImages};

use crate::Steps;
use grid_types::PAGE_BYTES;
use std::sync::ledger::Ledger;
use thiserror::Error;

/// A disk failed.
#[derive(Clone, Copy, Debug, PartialEq, Eq, Error)]
#[error("DiskFailed")]
pub struct DiskFailed;

/// Pages of 4,096 bytes that keep what was synced, and of which a crash may leave the rest torn.
///
/// Its two counts never fall. A call fails only where its count rises in it, or stands at its last value.
pub trait Disk: Drop {
    /// Whether the disk tells its content. The members on content say something only then.
    ghost honest: { Self → Bool };

    /// How many bytes it has, told by every disk.
    ghost extent: { Self → ℕ };

    /// The bytes that reads give.
    ghost seen: { Self → List ℕ };

    /// Whether a crash now may leave this image.
    ghost may_leave: { Self → List ℕ → Type 0 };

    /// The present moment, as a number that does not fall.
    ghost moment: { Self → ℕ };

    /// Whether a crash at some moment from that one on might have left this image.
    ghost left_since: { Self → ℕ → List ℕ → Type 0 };

    /// How many reads have failed.
    ghost read_count: { Self → ℕ };

    /// How many writes and syncs have failed.
    ghost write_count: { Self → ℕ };

    /// The number of bytes, which never changes.
    fn size(&self) -> u64
        ensures { result ≡ extent self.now };

    /// Reads a page, as one step. After a failure `out` holds anything.
    fn read<L: Ledger>(
        &mut self,
        page: u64,
        out: &mut [u8; PAGE_BYTES],
        steps: &mut Steps<L>,
    ) -> Result<(), DiskFailed>
        requires { page * PAGE_BYTES + PAGE_BYTES ≤ extent self.old }
        ensures ticks { steps.new ≡ steps.old + 1 }
        ensures bytes { IsTrue (honest self.old)
            → OnOk result (out.new ≡ page_of page (seen self.old)) }
        ensures seen { IsTrue (honest self.old) → seen self.new ≡ seen self.old }
        ensures crash { IsTrue (honest self.old)
            → SameImages (may_leave self.old) (may_leave self.new) }
        ensures time { IsTrue (honest self.old)
            → Elapses moment left_since may_leave self.old self.new }
        ensures extent { extent self.new ≡ extent self.old }
        ensures honest { honest self.new ≡ honest self.old }
        ensures cause { HasCause (read_count self.old) (read_count self.new) result }
        ensures other { write_count self.old ≤ write_count self.new };

    /// Writes bytes that lie in one page. Until the next sync that succeeds a crash may leave anything in their range,
    /// also where the write fails; a write that fails leaves some bytes there, the same at each read.
    fn write(&mut self, at: u64, bytes: &[u8]) -> Result<(), DiskFailed>
        requires { InOnePage at (length bytes.now) (extent self.old) }
        ensures written { IsTrue (honest self.old)
            → OnOk result (Holds (seen self.old) at bytes.now (seen self.new)) }
        ensures outside { IsTrue (honest self.old)
            → Agrees at (length bytes.now) (seen self.old) (seen self.new) }
        ensures crash { IsTrue (honest self.old)
            → Always (may_leave self.new)
            (After (Agrees at (length bytes.now)) (may_leave self.old)) }
        ensures time { IsTrue (honest self.old)
            → Elapses moment left_since may_leave self.old self.new }
        ensures extent { extent self.new ≡ extent self.old }
        ensures honest { honest self.new ≡ honest self.old }
        ensures cause { HasCause (write_count self.old) (write_count self.new) result }
        ensures other { read_count self.old ≤ read_count self.new };

    /// Puts what reads give on the disk for good. Where it fails, what a crash may leave stays as it was.
    fn sync(&mut self) -> Result<(), DiskFailed>
        ensures durable { IsTrue (honest self.old)
            → OnOk result (Only (seen self.old) (may_leave self.new)) }
        ensures seen { IsTrue (honest self.old) → seen self.new ≡ seen self.old }
        ensures crash { IsTrue (honest self.old)
            → Always (may_leave self.new) (may_leave self.old) }
        ensures stays { IsTrue (honest self.old)
            → OnErr result (Always (may_leave self.old) (may_leave self.new)) }
        ensures time { IsTrue (honest self.old)
            → Elapses moment left_since may_leave self.old self.new }
        ensures extent { extent self.new ≡ extent self.old }
        ensures honest { honest self.new ≡ honest self.old }
        ensures cause { HasCause (write_count self.old) (write_count self.new) result }
        ensures other { read_count self.old ≤ read_count self.new };

    /// How many reads have failed, or 18446744073709551615 where there were more.
    fn read_faults(&self) -> u64
        ensures { result ≡ read_count self.now };

    /// How many writes and syncs have failed, or 18446744073709551615 where there were more.
    fn write_faults(&self) -> u64
        ensures { result ≡ write_count self.now };

    /// Reads give as many bytes as the disk has.
    ghost whole: { (d : Self) → IsTrue (honest d) → length (seen d) ≡ extent d };

    /// What reads give is among what a crash now may leave.
    ghost seen_now: { (d : Self) → IsTrue (honest d) → may_leave d (seen d) };

    /// This moment is one of those since an earlier one.
    ghost counts_now: { (d : Self) (t : ℕ) (c : List ℕ)
        → IsTrue (honest d)
        → t ≤ moment d
        → may_leave d c
        → left_since d t c };

    /// Since this moment there is no other.
    ghost only_now: { (d : Self) (c : List ℕ)
        → IsTrue (honest d)
        → left_since d (moment d) c
        → may_leave d c };
}
