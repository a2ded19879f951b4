//! How many data pages a root keeps, and how many are free. Laws alone, no code.
#![tactic(auto)]

mod laws;

pub use laws::{change_count_law, free_count_law, root_count_law, step_count_law};
