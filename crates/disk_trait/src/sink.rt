//! Where output goes.
ghost use Rattle.std.specs.Prelude.{◌≡◌, ◌<◌, ◌≤◌, ◌++◌, Bool, List, ℕ, IsTrue, length, take, IfOk, OnOk, OnErr};
ghost use Rattle.disk_trait.specs.Causes.{HasCause};
ghost use Rattle.disk_trait.specs.Streams.{AddsFront};

use thiserror::Error;

/// A sink failed.
#[derive(Clone, Copy, Debug, PartialEq, Eq, Error)]
#[error("SinkFailed")]
pub struct SinkFailed;

/// Output that is given piece by piece. Its count of failures never falls, and a call fails only where it rises in it,
/// or stands at its last value.
pub trait Sink {
    /// Whether the sink tells its bytes.
    ghost tells: { Self → Bool };

    /// The bytes that it has received.
    ghost received: { Self → List ℕ };

    /// How often it has failed.
    ghost fault_count: { Self → ℕ };

    /// Gives the first of these bytes, at least one of some, and answers how many. A failure gives none.
    fn put(&mut self, bytes: &[u8]) -> Result<usize, SinkFailed>
        ensures bound { IfOk result (λ n. n ≤ length bytes.now) }
        ensures some { IfOk result (λ n. 0 < length bytes.now → 0 < n) }
        ensures added { IsTrue (tells self.old)
            → IfOk result (λ n. received self.new ≡ received self.old ++ take n bytes.now) }
        ensures refused { IsTrue (tells self.old)
            → OnErr result (received self.new ≡ received self.old) }
        ensures tells { tells self.new ≡ tells self.old }
        ensures cause { HasCause (fault_count self.old) (fault_count self.new) result };

    /// How often it has failed, or 18446744073709551615 where there were more.
    fn faults(&self) -> u64
        ensures { result ≡ fault_count self.now };
}

/// Gives all of the bytes. Where it fails the sink has received a front of them.
pub fn put_all<O: Sink>(out: &mut O, bytes: &[u8]) -> Result<(), SinkFailed>
    ensures added { IsTrue (O.tells out.old)
        → OnOk result (O.received out.new ≡ O.received out.old ++ bytes.now) }
    ensures front { IsTrue (O.tells out.old)
        → AddsFront (O.received out.old) (O.received out.new) bytes.now }
    ensures tells { O.tells out.new ≡ O.tells out.old }
    ensures cause { HasCause (O.fault_count out.old) (O.fault_count out.new) result }
{
    let mut at = 0;
    while at < bytes.len() {
        at += out.put(&bytes[at..])?;
    }
    Ok(())
}
