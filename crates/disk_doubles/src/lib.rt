//! Disks and bays that stand for others in tests: one that gives a page with a byte that was not there, and a bay that
//! has any one disk under one name.
#![tactic(auto)]

mod altered;
mod one_bay;
mod turning;

pub use altered::Altered;
pub use one_bay::OneBay;

#[cfg(test)]
mod tests;
