//! A script worked over a file, from its opening to its close.
#![tactic(auto)]

mod session;

pub use session::{Session, run_session};
