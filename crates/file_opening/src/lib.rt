//! A file is opened after any stop: what its journal has is redone, and a root of a new session takes it over.
#![tactic(auto)]

mod beginning;
mod begun;
mod opened;
mod opening;
mod redo_batches;
mod redoing;
mod renewing;
mod slots;
mod wearing;

pub use opened::{Opened, Unopened};
pub use opening::open_file;
