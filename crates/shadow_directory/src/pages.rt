//! The pages of a file while a change is written.
ghost use Rattle.std.specs.Prelude.{◌≡◌, ◌<◌, ◌≤◌, ◌+◌, ◌∷◌, ◌++◌, [], ℕ, List, Option, Some, OnOk, OnErr, IfOk};
ghost use Rattle.grid_types.specs.declared.owner.Owner.{Owner};
ghost use Rattle.grid_types.specs.declared.owner.Owner.TheVariants.{Part};
ghost use Rattle.disk_trait.specs.Causes.{HasCause};
ghost use Rattle.shadow_directory.specs.Pages.{LeavesPages, Ticks, BeganFor};

use disk_trait::{DiskFailed, Steps};
use grid_types::{Owner, PAGE_BYTES};
use std::sync::ledger::Ledger;

/// The pages of a file while a change is written: those from before it are read, the new ones are written on pages that
/// nobody reads.
pub trait ChangePages {
    /// What a reading of each owner gives, where that is told.
    ghost pages: { Self → Option (Owner → Option (List ℕ)) };

    /// Each owner with the bytes that were written for it, in order.
    ghost written: { Self → List (Owner × List ℕ) };

    /// How many pages may still be written.
    ghost room: { Self → ℕ };

    /// How many directory parts there are.
    ghost parts: { Self → ℕ };

    /// Whether a reading of a part may be of this page of the file.
    ghost lies_at: { Self → ℕ → ℕ → Type 0 };

    /// How many reads have failed.
    ghost read_count: { Self → ℕ };

    /// How many writes have failed.
    ghost write_count: { Self → ℕ };

    /// What each call leaves as it was, beside these members.
    ghost stays: { Self → Self → Type 0 };

    /// Reads a directory part, as one step. Ok is the page of the file that was read; after a failure `page` holds anything.
    fn read_part<L: Ledger>(
        &mut self,
        part: u32,
        page: &mut [u8; PAGE_BYTES],
        steps: &mut Steps<L>,
    ) -> Result<u32, DiskFailed>
        requires { part < parts self.old }
        ensures there { IfOk result (lies_at self.old part) }
        ensures bytes { (f : Owner → Option (List ℕ))
            → pages self.old ≡ Some f
            → OnOk result (f (Part part) ≡ Some page.new) }
        ensures ticks { Ticks 1 steps.old steps.new result }
        ensures same { LeavesPages pages parts lies_at stays self.old self.new }
        ensures written { written self.new ≡ written self.old }
        ensures room { room self.new ≡ room self.old }
        ensures cause { HasCause (read_count self.old) (read_count self.new) result }
        ensures other { write_count self.old ≤ write_count self.new };

    /// Writes the new page of an owner on the next page that was claimed. A page whose write failed holds anything.
    fn write_new(&mut self, owner: Owner, page: &[u8; PAGE_BYTES]) -> Result<(), DiskFailed>
        requires { 1 ≤ room self.old }
        ensures written { OnOk result
            (written self.new ≡ written self.old ++ (owner, page.now) ∷ []) }
        ensures room { OnOk result (room self.new + 1 ≡ room self.old) }
        ensures began { OnErr result
            (BeganFor (owner ∷ []) (written self.old) (written self.new)) }
        ensures same { LeavesPages pages parts lies_at stays self.old self.new }
        ensures cause { HasCause (write_count self.old) (write_count self.new) result }
        ensures other { read_count self.old ≤ read_count self.new };

    /// How many reads have failed, or 18446744073709551615 where there were more.
    fn read_faults(&self) -> u64
        ensures { result ≡ read_count self.now };

    /// How many writes have failed, or 18446744073709551615 where there were more.
    fn write_faults(&self) -> u64
        ensures { result ≡ write_count self.now };

    /// Nothing changes where there is no call.
    ghost stays_self: { (s : Self) → stays s s };

    /// What each of two calls leaves, both leave.
    ghost stays_on: { (a b c : Self) → stays a b → stays b c → stays a c };
}
