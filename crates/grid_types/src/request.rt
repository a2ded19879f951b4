//! What a client asks, and what it is told.

use crate::{Answer, Data, Key, Query, Record, Refusal, Rows, Stat};

/// What a client may ask.
#[derive(Debug, Drop, PartialEq, Eq)]
pub enum Request<const K: usize> {
    Put(Record<K>),
    Remove(Key<K>),
    Get(Key<K>),
    /// The records that match.
    List(Query<K>),
    /// How many records match.
    Count(Query<K>),
    Stat,
    Checkpoint,
}

/// What a client is told.
#[derive(Drop)]
pub enum Reply<const K: usize> {
    /// The place of the put, and the data that the key had.
    Put(Answer<Option<Data>>),
    /// The place of the remove, and the data that the key had. A key that is absent is told as by a reading.
    Removed(Answer<Option<Data>>),
    /// The place of the reading, and the data that the key has there.
    Got(Answer<Option<Data>>),
    /// The place of the reading, and the records that match there, in the order of their keys.
    Listed(Answer<Rows<K>>),
    /// The place of the reading, and how many records match there.
    Counted(Answer<u64>),
    Stood(Answer<Stat>),
    /// The place that is rooted now.
    Rooted(u64),
    Refused(Refusal),
}

/// A line of a script that asks something.
#[derive(Debug, Drop, PartialEq, Eq)]
pub struct Line<const K: usize> {
    /// Which client asks, 1 to 16.
    pub client: u32,
    pub request: Request<K>,
}
