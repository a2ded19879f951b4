//! Lists of records.
ghost use Rattle.std.specs.Prelude.{◌≡◌, ◌≤◌, ◌++◌, ◌∷◌, [], OnOk, OnErr};
ghost use Rattle.std.specs.List.Sorted.{IsPermutation, IsSortedByKey};
ghost use Rattle.grid_types.specs.declared.sizes.TheConstants.{MOST_ATTRIBUTES};
ghost use Rattle.grid_types.specs.Keys.{key_cmp};

use crate::Record;
use std::alloc::{AllocError, Global};
use std::marker::Model;

/// Records, in order. Its own type, so that contracts see it as a list.
#[derive(Drop)]
pub struct Rows<const K: usize> {
    list: Vec<Record<K>>,
}

impl<const K: usize> Model for Rows<K> {
    ghost use Rattle.std.specs.Prelude.{List};
    ghost use Rattle.grid_types.specs.declared.update.Record.{Record};

    ghost Value = { List (Record K) };

    ghost view = { λ r. r.list.items };
}

impl<const K: usize> Rows<K> {
    /// No records.
    pub fn new(alloc: Global) -> Rows<K>
        ensures { result ≡ [] }
    {
        Rows {
            list: Vec::new(alloc),
        }
    }

    /// Adds a record at the end. Its only error is want of memory.
    pub fn push(&mut self, row: Record<K>) -> Result<(), AllocError>
        ensures added { OnOk result (self.new ≡ self.old ++ row.entry ∷ []) }
        ensures refused { OnErr result (self.new ≡ self.old) }
    {
        match self.list.push(row) {
            Ok(()) => Ok(()),
            Err(_) => Err(AllocError),
        }
    }

    /// Puts the records in the order of their keys, in place.
    pub fn sort(&mut self)
        requires few { K ≤ MOST_ATTRIBUTES }
        ensures sorted { IsSortedByKey (λ r. r.key.numbers) key_cmp self.new }
        ensures same { IsPermutation self.old self.new }
    {
        self.list.sort_unstable();
    }

    /// The records of that list.
    pub fn of(list: Vec<Record<K>>) -> Rows<K>
        ensures { result ≡ list.entry.items }
    {
        Rows { list }
    }

    pub fn list(&self) -> &[Record<K>]
        ensures { result.now ≡ self.now }
    {
        &self.list
    }
}
