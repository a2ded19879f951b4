//! The new pages of a change, written to claimed pages while the old ones stand.
#![tactic(auto)]

mod buckets;
mod growing;
mod images;
mod pages;
mod patching;
mod reading;
mod refined;
mod room;
mod writing;

pub use buckets::NewBucket;
pub use growing::grow_part;
pub use pages::ChangePages;
pub use room::PartRoom;
pub use writing::write_change;

#[cfg(test)]
mod tests;
