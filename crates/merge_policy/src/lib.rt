//! With which neighbour a bucket is joined that has lost a record.
#![tactic(auto)]

mod direction;
mod joining;

pub use direction::{Direction, probe};
pub use joining::joinable;

#[cfg(test)]
mod tests;
