//! Scripts that a seed generates: puts and gets of random keys, the same ones wherever they are generated.
#![tactic(auto)]

mod draws;
mod generator;
mod laws;
mod lines;
mod puts;
#[cfg(test)]
mod tests;

pub use draws::MODULUS;
pub use generator::{MOST_ROUNDS, generate};
pub use laws::generator_law;
pub use puts::count_puts;
