//! Lists of batches.
ghost use Rattle.std.specs.Prelude.{◌≡◌, ◌++◌, ◌∷◌, [], map, OnOk, OnErr};
ghost use Rattle.journal_slots.specs.Batches.{batch_of};

use crate::Batch;
use std::alloc::{AllocError, Global};
use std::marker::Model;

/// Batches, in order. Its own type, so that contracts see it as the list of the model's batches.
#[derive(Drop)]
pub struct Batches<const K: usize> {
    list: Vec<Batch<K>>,
}

impl<const K: usize> Model for Batches<K> {
    ghost use Rattle.std.specs.Prelude.{List, map};
    ghost use Rattle.grid_model.specs.Spellings as model;
    ghost use Rattle.journal_slots.specs.Batches.{batch_of};

    ghost Value = { List (model.LoggedBatch K) };

    ghost view = { λ b. map batch_of b.list.items };
}

impl<const K: usize> Batches<K> {
    /// No batches.
    pub(crate) fn new(alloc: Global) -> Batches<K>
        ensures { result ≡ [] }
    {
        Batches {
            list: Vec::new(alloc),
        }
    }

    /// These batches, in the order of the list.
    pub fn of(list: Vec<Batch<K>>) -> Batches<K>
        ensures { result ≡ map batch_of list.entry.items }
    {
        Batches { list }
    }

    /// Adds a batch at the end. Its only error is want of memory.
    pub(crate) fn push(&mut self, batch: Batch<K>) -> Result<(), AllocError>
        ensures added { OnOk result (self.new ≡ self.old ++ batch_of batch.entry ∷ []) }
        ensures refused { OnErr result (self.new ≡ self.old) }
    {
        self.list.push(batch)?;
        Ok(())
    }

    /// Adds other batches behind these. Its only error is want of memory; then these are as they were, and the others are
    /// let go.
    pub fn append(&mut self, other: Batches<K>) -> Result<(), AllocError>
        ensures added { OnOk result (self.new ≡ self.old ++ other.entry) }
        ensures refused { OnErr result (self.new ≡ self.old) }
    {
        let mut others = other.list;
        self.list.append(&mut others)
    }

    /// The list of the batches, in order.
    pub fn into_list(self) -> Vec<Batch<K>>
        ensures { map batch_of result.items ≡ self.entry }
    {
        self.list
    }

    /// The batches, in order.
    pub fn list(&self) -> &[Batch<K>]
        ensures { map batch_of result.now ≡ self.now }
    {
        &self.list
    }
}
