//! What an opening gives.
use disk_trait::Disk;
use file_updates::UpdateRoom;
use grid_file::GridFile;
use grid_types::Refusal;
use linear_scales::Root;
use query_paths::Room;

/// A file that was opened, with room for its next root, for its updates and for its readings.
#[derive(Drop)]
pub struct Opened<const K: usize, D: Disk> {
    pub file: GridFile<K, D>,
    pub next: Root<K>,
    pub room: UpdateRoom<K>,
    pub query: Room<K>,
}

/// A file that was not opened: why, and its disk.
#[derive(Drop)]
pub struct Unopened<D: Disk> {
    pub refusal: Refusal,
    pub disk: Box<D>,
}
