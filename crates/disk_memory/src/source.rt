//! A source in memory.
ghost use Rattle.std.specs.Prelude.{◌≡◌, ◌↔◌, ◌++◌, ◌∷◌, ◌<◌, ◌≤◌, [], true, length, min, Contains, IsErr, IfOk, OnOk, OnErr};
ghost use Rattle.disk_trait.specs.Causes.{HasCause};
ghost use Rattle.disk_trait.specs.Streams.{Takes};

use crate::piece::piece_of;
use crate::plan::Plan;
use disk_trait::{Source, SourceFailed};
use std::alloc::{AllocError, Global};

/// Input that lies in memory.
#[derive(Drop)]
pub struct ByteSource {
    bytes: Vec<u8>,
    at: usize,
    limit: usize,
    plan: Plan,
    failures: u64,
    ghost within: { at ≤ length bytes.items },
}

impl ByteSource {
    ghost use Rattle.disk_memory.specs.Streams.{left_in, failed_takes, chosen_takes, take_limit};

    /// A source that has these bytes left, and no limit.
    pub fn new(bytes: Vec<u8>) -> ByteSource
        ensures left { left_in result ≡ bytes.items }
        ensures unfailed { failed_takes result ≡ 0 }
        ensures unplanned { chosen_takes result ≡ [] }
        ensures unlimited { take_limit result ≡ 0 }
    {
        let plan = Plan::new(*bytes.allocator());
        ByteSource {
            bytes,
            at: 0,
            limit: 0,
            plan,
            failures: 0,
        }
    }

    /// From now on that take fails, counted from 1: 1 is the next of them.
    pub fn fail(&mut self, call: u64) -> Result<(), AllocError>
        ensures left { left_in self.new ≡ left_in self.old }
        ensures failures { failed_takes self.new ≡ failed_takes self.old }
        ensures limit { take_limit self.new ≡ take_limit self.old }
        ensures chosen { OnOk result (chosen_takes self.new ≡ chosen_takes self.old ++ call ∷ []) }
        ensures refused { OnErr result (chosen_takes self.new ≡ chosen_takes self.old) }
    {
        self.plan.choose(call)
    }

    /// From now on a take gives at most that many bytes. 0 is no limit.
    pub fn limit(&mut self, piece: usize)
        ensures left { left_in self.new ≡ left_in self.old }
        ensures failures { failed_takes self.new ≡ failed_takes self.old }
        ensures limit { take_limit self.new ≡ piece }
        ensures chosen { chosen_takes self.new ≡ chosen_takes self.old }
    {
        self.limit = piece;
    }
}

impl Source for ByteSource {
    ghost use Rattle.disk_memory.specs.Plans.{after_a_call, counted};
    ghost use Rattle.disk_memory.specs.Pieces.{piece_of};
    ghost use Rattle.disk_memory.specs.Streams.{left_in, failed_takes, chosen_takes, take_limit};

    ghost tells = { λ s. true };

    ghost left = { left_in };

    ghost fault_count = { failed_takes };

    fn take(&mut self, out: &mut [u8]) -> Result<usize, SourceFailed>
        ensures bound { IfOk result (λ n. n ≤ length out.old) }
        ensures taken { IfOk result (Takes (left_in self.old) (left_in self.new) out.new) }
        ensures end { IfOk result (λ n. n ≡ 0 → 0 < length out.old → left_in self.old ≡ []) }
        ensures refused { OnErr result (left_in self.new ≡ left_in self.old) }
        ensures cause { HasCause (failed_takes self.old) (failed_takes self.new) result }

        // Only a take that was chosen fails, and a limit is kept.
        ensures fails { IsErr result ↔ Contains (chosen_takes self.old) 1 }
        ensures counted { failed_takes self.new ≡ counted result (failed_takes self.old) }
        ensures nearer { chosen_takes self.new ≡ after_a_call (chosen_takes self.old) }
        ensures piece { IfOk result (λ n. n
            ≡ piece_of (take_limit self.old) (min (length out.old) (length (left_in self.old)))) }
        ensures limit { take_limit self.new ≡ take_limit self.old }
    {
        if self.plan.is_next_chosen() {
            self.failures = self.failures.saturating_add(1);
            return Err(SourceFailed);
        }
        let count = piece_of(self.limit, out.len().min(self.bytes.len() - self.at));
        out[..count].copy_from_slice(&self.bytes[self.at..self.at + count]);
        self.at += count;
        Ok(count)
    }

    fn faults(&self) -> u64 {
        self.failures
    }
}
