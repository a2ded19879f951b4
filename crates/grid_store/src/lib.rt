//! A store: a grid file that one client has open, each of whose answered updates is on the disk.
#![tactic(auto)]

mod changing;
mod laws;
mod listing;
mod opening;
mod reading;
mod stating;
mod store;

pub use laws::store_law;
pub use opening::open_store;
pub use store::Store;

#[cfg(test)]
mod tests;
