//! Which calls are to fail.
ghost use Rattle.std.specs.Prelude.{◌≡◌, ◌++◌, ◌∷◌, [], ◌↔◌, Contains, IsTrue, OnOk, OnErr};
ghost use Rattle.disk_memory.specs.Plans.{after_a_call};

use std::alloc::{AllocError, Global};
use std::marker::Model;

/// The calls that are to fail, each counted from the next call on, which is 1. Those behind it are 0.
#[derive(Drop)]
pub struct Plan {
    chosen: Vec<u64>,
}

impl Model for Plan {
    ghost use Rattle.std.specs.Prelude.{List, ℕ};

    ghost Value = { List ℕ };

    ghost view = { λ p. p.chosen.items };
}

impl Plan {
    /// No call is to fail.
    pub fn new(alloc: Global) -> Plan
        ensures { result ≡ [] }
    {
        Plan {
            chosen: Vec::new(alloc),
        }
    }

    /// From now on that call is to fail too.
    pub fn choose(&mut self, call: u64) -> Result<(), AllocError>
        ensures added { OnOk result (self.new ≡ self.old ++ call ∷ []) }
        ensures refused { OnErr result (self.new ≡ self.old) }
    {
        self.chosen.push(call)?;
        Ok(())
    }

    /// Counts a call, and says whether it is to fail.
    pub fn is_next_chosen(&mut self) -> bool
        ensures chosen { IsTrue result ↔ Contains self.old 1 }
        ensures counted { self.new ≡ after_a_call self.old }
    {
        let is_chosen = self.chosen.contains(&1);
        for call in self.chosen.iter_mut() {
            *call = call.saturating_sub(1);
        }
        is_chosen
    }
}
