//! The state of each data page: free, claimed by a seat, or live, the page of an owner from a place on.
#![tactic(auto)]

mod anchor;
mod anchors;
mod claiming;
mod current;
mod free_pages;
mod freeing;
mod laws;
mod numbers;
mod page_state;
mod publishing;
mod reading;
mod roots;
mod slot;
mod states;
mod sweeping;
mod table;
#[cfg(test)]
mod tests;

pub use laws::{
    change_law, claim_law, counted_pages, front_law, kept_places, new_place, pages_law,
};
pub use page_state::PageState;
pub use states::PageStates;
