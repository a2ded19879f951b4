//! Linear scales: the boundaries that part the numbers of an attribute into intervals, one scale for each attribute.
#![tactic(auto)]

mod boundaries;
mod refused;
mod root;
mod scale;
mod scales;

pub use refused::ScaleRefused;
pub use root::{NOWHERE, Root};
pub use scale::Scale;
pub use scales::Scales;

#[cfg(test)]
mod tests;
