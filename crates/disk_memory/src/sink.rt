//! A sink in memory.
ghost use Rattle.std.specs.Prelude.{◌≡◌, ◌++◌, ◌∷◌, ◌<◌, ◌≤◌, [], true, length, take, Contains, IsErr, IfOk, OnOk, OnErr};
ghost use Rattle.disk_trait.specs.Causes.{HasCause};

use crate::piece::piece_of;
use crate::plan::Plan;
use disk_trait::{Sink, SinkFailed};
use std::alloc::{AllocError, Global};

/// Output that stays in memory.
#[derive(Drop)]
pub struct ByteSink {
    bytes: Vec<u8>,
    limit: usize,
    plan: Plan,
    failures: u64,
}

impl ByteSink {
    ghost use Rattle.disk_memory.specs.Streams.{received_by, failed_puts, chosen_puts, put_limit};

    /// A sink that has received nothing, and has no limit.
    pub fn new(alloc: Global) -> ByteSink
        ensures received { received_by result ≡ [] }
        ensures unfailed { failed_puts result ≡ 0 }
        ensures unplanned { chosen_puts result ≡ [] }
        ensures unlimited { put_limit result ≡ 0 }
    {
        ByteSink {
            bytes: Vec::new(alloc),
            limit: 0,
            plan: Plan::new(alloc),
            failures: 0,
        }
    }

    /// The bytes that it has received.
    pub fn bytes(&self) -> &[u8]
        ensures { result.now ≡ received_by self.now }
    {
        &self.bytes
    }

    /// From now on that put fails, counted from 1: 1 is the next of them.
    pub fn fail(&mut self, call: u64) -> Result<(), AllocError>
        ensures received { received_by self.new ≡ received_by self.old }
        ensures failures { failed_puts self.new ≡ failed_puts self.old }
        ensures limit { put_limit self.new ≡ put_limit self.old }
        ensures chosen { OnOk result (chosen_puts self.new ≡ chosen_puts self.old ++ call ∷ []) }
        ensures refused { OnErr result (chosen_puts self.new ≡ chosen_puts self.old) }
    {
        self.plan.choose(call)
    }

    /// From now on a put takes at most that many bytes. 0 is no limit.
    pub fn limit(&mut self, piece: usize)
        ensures received { received_by self.new ≡ received_by self.old }
        ensures failures { failed_puts self.new ≡ failed_puts self.old }
        ensures limit { put_limit self.new ≡ piece }
        ensures chosen { chosen_puts self.new ≡ chosen_puts self.old }
    {
        self.limit = piece;
    }
}

impl Sink for ByteSink {
    ghost use Rattle.disk_memory.specs.Plans.{after_a_call, counted};
    ghost use Rattle.disk_memory.specs.Pieces.{piece_of};
    ghost use Rattle.disk_memory.specs.Streams.{received_by, failed_puts, chosen_puts, put_limit};

    ghost tells = { λ s. true };

    ghost received = { received_by };

    ghost fault_count = { failed_puts };

    fn put(&mut self, bytes: &[u8]) -> Result<usize, SinkFailed>
        ensures bound { IfOk result (λ n. n ≤ length bytes.now) }
        ensures some { IfOk result (λ n. 0 < length bytes.now → 0 < n) }
        ensures added { IfOk result
            (λ n. received_by self.new ≡ received_by self.old ++ take n bytes.now) }
        ensures refused { OnErr result (received_by self.new ≡ received_by self.old) }
        ensures cause { HasCause (failed_puts self.old) (failed_puts self.new) result }

        // A put that was chosen fails, any other only for want of memory, and a limit is kept.
        ensures fails { Contains (chosen_puts self.old) 1 → IsErr result }
        ensures counted { failed_puts self.new ≡ counted result (failed_puts self.old) }
        ensures nearer { chosen_puts self.new ≡ after_a_call (chosen_puts self.old) }
        ensures piece { IfOk result (λ n. n ≡ piece_of (put_limit self.old) (length bytes.now)) }
        ensures limit { put_limit self.new ≡ put_limit self.old }
    {
        let count = piece_of(self.limit, bytes.len());
        if self.plan.is_next_chosen() || self.bytes.extend_from_slice(&bytes[..count]).is_err() {
            self.failures = self.failures.saturating_add(1);
            return Err(SinkFailed);
        }
        Ok(count)
    }

    fn faults(&self) -> u64 {
        self.failures
    }
}
