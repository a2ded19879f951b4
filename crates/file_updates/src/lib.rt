//! One update of an open file up to its commit: what it does is planned by reading alone, and its new pages are written.
#![tactic(auto)]

mod change;
mod found;
mod logged;
mod planning;
mod room;
mod writing;

pub use change::change_of;
pub use logged::plan_logged;
pub use planning::{Outcome, plan_update};
pub use room::UpdateRoom;
pub use writing::write_update;
