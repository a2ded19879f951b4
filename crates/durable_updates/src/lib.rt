//! One update of an open file as its one client asks it, from the plan to the commit, with the root steps that it needs.
#![tactic(auto)]

mod carrying;
mod committing;
mod making_room;
mod planning;
mod root_steps;
mod updating;

pub use root_steps::step_root;
pub use updating::update_file;
