//! What the journal of a file has.
use journal_slots::Batches;

/// What the two halves of the journal have of a session.
#[derive(Drop)]
pub struct Journal<const K: usize> {
    /// The batches on open slots, the first half's and then the second's.
    pub batches: Batches<K>,
    /// How many slots of each half are in use: those up to the last gate that is not 0.
    pub used: [u32; 2],
}
