//! Scripts, and why a text is none.
ghost use Rattle.std.specs.Prelude.{◌≡◌, ◌<◌, ◌↔◌, length, nat_lt, IsTrue};
ghost use Rattle.grid_model.specs.Script.{longest};

use grid_types::Line;
use std::marker::Model;

/// The most bytes that a script has.
const LONGEST: usize = 16_777_216;

/// Why a text is no script.
#[derive(Clone, Copy, Debug, PartialEq, Eq)]
pub enum ScriptFault {
    /// The first line that is nothing of the grammar or asks something as another client than 1, counted from 1; 0 where
    /// the text has too many bytes.
    Line(u64),
    /// There was no memory for the list.
    NoMemory,
}

/// The lines of a script that ask something, in order.
#[derive(Drop)]
pub struct Script<const K: usize> {
    list: Vec<Line<K>>,
}

impl<const K: usize> Model for Script<K> {
    ghost use Rattle.std.specs.Prelude.{List};
    ghost use Rattle.grid_types.specs.declared.request.Line.{Line};

    ghost Value = { List (Line K) };

    ghost view = { λ s. s.list.items };
}

impl<const K: usize> Script<K> {
    /// The script of these lines.
    pub fn of(list: Vec<Line<K>>) -> Script<K>
        ensures { result ≡ list.entry.items }
    {
        Script { list }
    }

    pub fn lines(&self) -> &[Line<K>]
        ensures { result.now ≡ self.now }
    {
        self.list.as_slice()
    }
}

/// Whether a text has more bytes than any script.
#[tactic(auto, unfolding(grid_model::specs::Script::longest))]
pub fn is_too_long(bytes: &[u8]) -> bool
    ensures long { IsTrue result ↔ (longest < length bytes.now) }
    ensures test { result ≡ nat_lt longest (length bytes.now) }
{
    LONGEST < bytes.len()
}
