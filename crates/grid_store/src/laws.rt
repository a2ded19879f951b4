//! The law of stores, as the contract of a function without code.
ghost use Rattle.grid_store.specs.Laws.{StoreTells};

use disk_trait::Disk;

/// The law of stores: where a store is at a point of its client's session, its file stands there, as it reads and in each
/// image that a crash leaves.
pub fn store_law<const K: usize, D: Disk>()
    ensures { StoreTells K D.Disk }
{}
