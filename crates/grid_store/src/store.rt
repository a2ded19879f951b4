//! A store: one file with one client.
ghost use Rattle.std.specs.Prelude.{◌≡◌};

use disk_trait::Disk;
use file_updates::UpdateRoom;
use grid_file::GridFile;
use grid_types::PAGE_BYTES;
use journal_slots::Batch;
use linear_scales::Root;
use query_paths::Room;
use std::marker::Model;

/// A grid file with K attributes that one client has open, with all the room that its calls need. Each answer is true at the
/// place that it tells, and each update that is answered is on the disk. Where the batch of an update failed, the store is
/// stopped: readings go on, and updates and checkpoints are refused until the file is opened again.
#[derive(Drop)]
pub struct Store<const K: usize, D: Disk> {
    pub(crate) file: GridFile<K, D>,
    pub(crate) next: Root<K>,
    pub(crate) room: UpdateRoom<K>,
    pub(crate) batch: Box<Batch<K>>,
    pub(crate) query: Room<K>,
    pub(crate) page: Box<[u8; PAGE_BYTES]>,
    pub(crate) stop: Option<u64>,
    pub(crate) opened: u64,
}

impl<const K: usize, D: Disk> Model for Store<K, D> {
    ghost use Rattle.grid_store.specs.Stores.{OpenStore, IsIdleStore};

    ghost Value = { OpenStore K D };

    ghost view = { λ s. record {
      file = s.file;
      next = s.next;
      room = s.room;
      query = s.query;
      page = s.page.value;
      stop = s.stop;
      opened = s.opened;
    } };

    ghost invariant = { λ s. IsIdleStore {K = K} {D = D} (record {
      file = s.file;
      next = s.next;
      room = s.room;
      query = s.query;
      page = s.page.value;
      stop = s.stop;
      opened = s.opened;
    }) };
}

impl<const K: usize, D: Disk> Store<K, D> {
    /// The place of the last update.
    pub fn front(&self) -> u64
        ensures { result ≡ self.now.file.books.front }
    {
        self.file.state().front()
    }
}
