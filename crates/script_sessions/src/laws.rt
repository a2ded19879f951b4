//! The law of sessions over a store, as the contract of a function without code.
ghost use Rattle.script_sessions.specs.Laws.{SessionsTell};

use client_sessions::explained_law;
use disk_trait::Disk;
use grid_store::store_law;

/// The law of sessions over a store: what one client was told is explained by one history, and the file stands where its lines
/// lead.
pub fn sessions_law<const K: usize, D: Disk>()
    ensures { SessionsTell K D.Disk }
{
    explained_law::<K>();
    store_law::<K, D>();
}
