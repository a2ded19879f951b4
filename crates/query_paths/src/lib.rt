//! How a get, a count and a listing go over directory and bucket pages, wherever the pages come from.
#![tactic(auto)]

mod counting;
mod finding;
mod gathering;
mod getting;
mod listing;
mod marks;
#[cfg(test)]
mod pages_in_memory;
mod pinned;
mod reading;
mod room;
#[cfg(test)]
mod tests;
mod walking;

pub use counting::count_rows;
pub use finding::find_bucket;
pub use getting::exact;
pub use listing::list_rows;
pub use pinned::Pinned;
pub use room::Room;
