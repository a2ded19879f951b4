//! How a file is opened: what is found in it before its data pages are read, or the first damage for which it is refused.
#![tactic(auto)]

mod joined;
mod joining;
mod journal;
mod laws;
mod rooted;
mod rooting;
mod shape;
mod survey;
mod surveying;

pub use laws::survey_law;
pub use shape::read_shape;
pub use survey::Survey;
pub use surveying::survey_file;

#[cfg(test)]
mod tests;
