//! What a put or a remove does, decided as one value before any page is claimed.
#![tactic(auto)]

mod merging;
mod pages;
mod plan;
mod putting;
mod removing;

pub use merging::plan_merge;
pub use plan::Plan;
pub use putting::{Planned, plan_put};
pub use removing::plan_removal;

#[cfg(test)]
mod tests;
