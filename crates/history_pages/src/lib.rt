//! The page of each owner of a layout, and what updates with their notes do to the pages along a history.
#![tactic(auto)]

mod laws;

pub use laws::{content_law, holding_law, page_law, spelling_law};
