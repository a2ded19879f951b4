//! One file with one client: the pages that ways over pages read, and those that a change writes.
#![tactic(auto)]

mod claimed;
mod file;
mod lasting;
mod laws;
mod reading;
mod steps;
mod writing;
mod written;

pub use claimed::{Claimed, MOST_NEW_PAGES};
pub use file::GridFile;
pub use laws::{reading_law, redo_reading_law, redo_written_law, written_law};
