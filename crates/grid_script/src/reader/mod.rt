//! Scripts read from bytes.
ghost use Rattle.std.specs.Prelude.{◌≡◌, ◌<◌, ◌≤◌, ◌+◌, ◌^◌, ◌∷◌, ◌++◌, [], ℕ, List, Ok, IfOk, IsErrOf, OnOk, length};
ghost use Rattle.grid_model.specs.Script.{Meaning, Asks, meaning, meanings, asked, longest};
ghost use Rattle.grid_model.specs.ScriptLaws.{speaker};
ghost use Rattle.grid_script.specs.Reading.{meant};
ghost use Rattle.grid_script.specs.Taken.{AreTaken, IsScript, IsFault, IsFirstRefused, Refuses};
ghost use Rattle.grid_script.specs.declared.script.ScriptFault.TheVariants as fault;

pub mod meanings;
mod parts;
mod pieces;
mod queries;
mod requests;
mod sides;

use crate::lines::first_line;
use crate::script::{Script, ScriptFault, is_too_long};
use grid_types::{Line, Request};
use meanings::{Said, meaning_of};
use std::alloc::Global;

/// How far a script is read.
#[derive(Drop)]
struct Reading<const K: usize> {
    /// The lines so far that ask something.
    list: Vec<Line<K>>,
    /// Who asks.
    client: u32,
    /// The number of the next line.
    number: u64,
}

impl<const K: usize> Reading<K> {
    ghost use Rattle.grid_script.specs.Reading.{read_on};

    /// Adds a request of the client that asks. The program refuses those of any client but 1.
    #[tactic(auto, unfolding(crate::specs::Taken::is_taken))]
    fn add(&mut self, request: Request<K>) -> Result<(), ScriptFault>
        ensures client { self.new.client ≡ self.old.client }
        ensures number { self.new.number ≡ self.old.number }
        ensures added { OnOk result (self.new.list.items
            ≡ self.old.list.items
            ++ (record { client = self.old.client; request = request.entry }) ∷ []) }
        ensures passed { OnOk result (Refuses self.old.client (Asks request.entry) → ⊥) }
        ensures fault { (n : ℕ) → IsErrOf result (fault.Line n) → self.old.number ≡ n }
        ensures refused { (n : ℕ) → IsErrOf result (fault.Line n)
            → Refuses self.old.client (Asks request.entry) }
    {
        if self.client != 1 {
            return Err(ScriptFault::Line(self.number));
        }
        let client = self.client;
        match self.list.push(Line { client, request }) {
            Ok(()) => Ok(()),
            Err(_) => Err(ScriptFault::NoMemory),
        }
    }

    /// Takes in what the next line says, unless the program refuses it.
    fn take(&mut self, said: Said<K>) -> Result<(), ScriptFault>
        requires { self.old.number < 2 ^ 63 }
        ensures number { OnOk result (self.new.number ≡ self.old.number + 1) }
        ensures speaker { OnOk result (self.new.client
            ≡ speaker self.old.client (meant said.entry)) }
        ensures read { OnOk result ((ms : List (Meaning K))
            → read_on self.old (meant said.entry ∷ ms) ≡ read_on self.new ms) }
        ensures passed { OnOk result (Refuses self.old.client (meant said.entry) → ⊥) }
        ensures taken { OnOk result (AreTaken self.old.list.items
            → AreTaken self.new.list.items) }
        ensures fault { (n : ℕ) → IsErrOf result (fault.Line n) → self.old.number ≡ n }
        ensures refused { (n : ℕ) → IsErrOf result (fault.Line n)
            → Refuses self.old.client (meant said.entry) }
    {
        match said {
            Said::Silent => {}
            Said::Speaks(client) => self.client = client,
            Said::Asks(request) => self.add(request)?,
            Said::Bad => return Err(ScriptFault::Line(self.number)),
        }
        self.number += 1;
        Ok(())
    }
}

/// The lines of a text that ask something, unless the program refuses one.
fn read_lines<const K: usize>(alloc: Global, bytes: &[u8]) -> Result<Vec<Line<K>>, ScriptFault>
    requires { K ≤ 4 }
    ensures read { IfOk result (λ list. asked 1 1 (meanings K bytes.now) ≡ Ok list.items) }
    ensures taken { IfOk result (λ list. AreTaken list.items) }
    ensures fault { (n : ℕ) → IsErrOf result (fault.Line n) → IsFirstRefused K bytes.now n }
{
    let mut reading = Reading {
        list: Vec::new(alloc),
        client: 1,
        number: 1,
    };
    let mut rest = bytes;
    while !rest.is_empty() {
        let (line, after) = first_line(rest);
        reading.take(meaning_of(line))?;
        rest = after;
    }
    Ok(reading.list)
}

/// The script that the bytes write, or the first line that the program refuses: one that is nothing of the grammar, or that
/// asks something as another client than 1. A text that is too long is line 0, before any memory is taken and any line is
/// read.
#[tactic(auto, unfolding(grid_model::specs::Script::lines))]
pub fn read_script<const K: usize>(alloc: Global, bytes: &[u8]) -> Result<Script<K>, ScriptFault>
    requires some { 1 ≤ K }
    requires few { K ≤ 4 }
    ensures read { IfOk result (IsScript bytes.now) }
    ensures count { IfOk result (λ s. length s ≤ length bytes.now) }
    ensures fault { (n : ℕ) → IsErrOf result (fault.Line n) → IsFault K bytes.now n }
    ensures no_memory { IsErrOf result fault.NoMemory → length bytes.now ≤ longest }
{
    if is_too_long(bytes) {
        return Err(ScriptFault::Line(0));
    }
    let list = read_lines(alloc, bytes)?;
    Ok(Script::of(list))
}
