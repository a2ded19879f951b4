//! What an opening begins with.
use file_state::FileState;
use file_updates::UpdateRoom;
use journal_slots::Batches;
use linear_scales::Root;
use query_paths::Room;

/// What an opening begins with, once a file is judged and all memory is taken.
#[derive(Drop)]
pub(crate) struct Begun<const K: usize> {
    /// What memory keeps of the file at its newest root.
    pub(crate) state: FileState<K>,
    /// Room for the next root.
    pub(crate) next: Root<K>,
    /// Room for the updates that are redone, and for all later ones.
    pub(crate) room: UpdateRoom<K>,
    /// Room for counts and listings.
    pub(crate) query: Room<K>,
    /// The batches behind the root, which are to be redone in order.
    pub(crate) taken: Batches<K>,
}
