//! What memory keeps of a file, as one value: how far its history goes, what is counted, its roots and its journal, the
//! boundaries of its scales, and whose each data page is. It has no disk.
#![tactic(auto)]

mod change;
mod counting;
mod journal;
mod keeping;
mod memory;
mod opening;
mod publishing;
mod reading;
mod rooting;
mod state;

pub use change::Change;
pub use rooting::room_for_root;
pub use state::FileState;
