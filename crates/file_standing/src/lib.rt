//! Where a file stands: what its books and what is kept on it say of each other, and what each step leaves of that. Laws
//! alone, no code.
#![tactic(auto)]

mod laws;

pub use laws::{commit_law, lead_law, page_step_law, root_step_law};
