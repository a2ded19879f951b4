//! Records, and what an update does with one.

use crate::{Data, Key};

/// A key with its data. Records are ordered by their keys; two of one key, which no table has, by their data.
#[derive(Debug, Default, Drop, PartialEq, Eq, PartialOrd, Ord)]
pub struct Record<const K: usize> {
    pub key: Key<K>,
    pub value: Data,
}

/// A change of the table.
#[derive(Debug, Drop, PartialEq, Eq)]
pub enum Update<const K: usize> {
    /// From now on the key has this data.
    Put(Record<K>),
    /// From now on the key is absent.
    Remove(Key<K>),
}

impl<const K: usize> Default for Update<K> {
    fn default() -> Update<K> {
        Update::Remove(Key::default())
    }
}

/// An update in a history: who made it.
#[derive(Debug, Drop, PartialEq, Eq)]
pub struct Entry<const K: usize> {
    pub caller: u32,
    pub update: Update<K>,
}
