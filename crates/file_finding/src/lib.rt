//! What is kept on a file that is found in an image: laws alone, no code.
#![tactic(auto)]

mod laws;

pub use laws::finding_law;
