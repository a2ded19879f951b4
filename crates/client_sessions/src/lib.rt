//! A session of one client: what it is told line by line, and that one history explains it. Laws alone, no code.
#![tactic(auto)]

mod laws;

pub use laws::{explained_law, session_law};
