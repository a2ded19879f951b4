//! Where a bucket with too many records is cut.
#![tactic(auto)]

mod candidate;
mod existing;
mod median;
mod numbers;
mod refinement;
mod rule;

pub use median::Median;
pub use rule::{CutRule, MOST_ROWS};

#[cfg(test)]
mod drawn;
#[cfg(test)]
mod drawn_tests;
#[cfg(test)]
mod tests;
