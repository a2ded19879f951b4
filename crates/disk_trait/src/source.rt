//! Where input comes from.
ghost use Rattle.std.specs.Prelude.{◌≡◌, ◌<◌, ◌≤◌, [], Bool, List, ℕ, IsTrue, length, IfOk, OnErr};
ghost use Rattle.disk_trait.specs.Causes.{HasCause};
ghost use Rattle.disk_trait.specs.Streams.{Takes};

use thiserror::Error;

/// A source failed.
#[derive(Clone, Copy, Debug, PartialEq, Eq, Error)]
#[error("SourceFailed")]
pub struct SourceFailed;

/// Input that is taken piece by piece. Its count of failures never falls, and a call fails only where it rises in it,
/// or stands at its last value.
pub trait Source {
    /// Whether the source tells its bytes.
    ghost tells: { Self → Bool };

    /// The bytes that it has left.
    ghost left: { Self → List ℕ };

    /// How often it has failed.
    ghost fault_count: { Self → ℕ };

    /// Takes the next bytes into the start of `out` and answers how many. 0 for an `out` with room is the end of the
    /// input. A failure takes none.
    fn take(&mut self, out: &mut [u8]) -> Result<usize, SourceFailed>
        ensures bound { IfOk result (λ n. n ≤ length out.old) }
        ensures taken { IsTrue (tells self.old)
            → IfOk result (Takes (left self.old) (left self.new) out.new) }
        ensures end { IsTrue (tells self.old)
            → IfOk result (λ n. n ≡ 0 → 0 < length out.old → left self.old ≡ []) }
        ensures refused { IsTrue (tells self.old) → OnErr result (left self.new ≡ left self.old) }
        ensures tells { tells self.new ≡ tells self.old }
        ensures cause { HasCause (fault_count self.old) (fault_count self.new) result };

    /// How often it has failed, or 18446744073709551615 where there were more.
    fn faults(&self) -> u64
        ensures { result ≡ fault_count self.now };
}
