//! What an update makes of the pages of buckets: a record put or taken from page to page, a bucket cut, two buckets joined.
#![tactic(auto)]

mod cutting;
mod joining;
mod placing;
mod taking;

pub use cutting::cut_of;
pub use joining::join_of;
pub use placing::{Placed, put_in};
pub use taking::take_from;

#[cfg(test)]
mod tests;
