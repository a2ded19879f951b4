//! The lines of a script, answered over a store one after the other.
#![tactic(auto)]

mod laws;
mod lines;
mod session;

pub use laws::sessions_law;
pub use lines::answer_line;
pub use session::answer_all;
