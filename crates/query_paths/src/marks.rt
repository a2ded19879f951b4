//! Marks on numbers, all taken away at once.
ghost use Rattle.std.specs.Prelude.{◌≡◌, ◌<◌, false, true, length, replicate, slice_index_or, slice_set, IfOk, IsTrue, ◌↔◌};

use std::alloc::{AllocError, Global};
use std::marker::Model;

/// A mark on some of the numbers from 0 on. A number is marked where it has the number of the present round, so that a new
/// round takes all marks away.
#[derive(Drop)]
pub struct Marks {
    rounds: Vec<u32>,
    present: u32,
}

impl Model for Marks {
    ghost use Rattle.std.specs.Prelude.{◌≤◌, ◌==◌, List, Bool, map, All};

    ghost Value = { List Bool };

    ghost view = { λ m. map (λ round. round == m.present) m.rounds.items };

    ghost invariant = { λ m. All (λ round. round ≤ m.present) m.rounds.items };
}

impl Marks {
    /// No mark on any of so many numbers.
    pub fn new(alloc: Global, count: u32) -> Result<Marks, AllocError>
        ensures { IfOk result (λ m. m ≡ replicate count false) }
    {
        let rounds = vec![in alloc; 0; count as usize]?;
        Ok(Marks { rounds, present: 1 })
    }

    /// Takes all marks away.
    pub fn clear(&mut self)
        ensures { self.new ≡ replicate (length self.old) false }
    {
        if self.present == u32::MAX {
            self.rounds.fill(0);
            self.present = 0;
        }
        self.present += 1;
    }

    /// Whether there is such a number.
    pub fn has(&self, n: u32) -> bool
        ensures { IsTrue result ↔ (n < length self.now) }
    {
        (n as usize) < self.rounds.len()
    }

    /// Whether the number is marked.
    pub fn is_marked(&self, n: u32) -> bool
        requires { n < length self.now }
        ensures { result ≡ slice_index_or self.now n false }
    {
        self.rounds[n as usize] == self.present
    }

    /// Marks the number.
    pub fn mark(&mut self, n: u32)
        requires { n < length self.old }
        ensures { self.new ≡ slice_set self.old n true }
    {
        self.rounds[n as usize] = self.present;
    }
}
