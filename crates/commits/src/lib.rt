//! The commit of one update in a file with one client.
#![tactic(auto)]

mod committing;
mod one_update;

pub use committing::commit_update;
