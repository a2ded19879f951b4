//! Which data pages hold a layout and its table, and what each step leaves of that. Laws alone, no code.
#![tactic(auto)]

mod laws;

pub use laws::{change_law, copy_law, named_law, opening_law, step_law};
