//! The neighbour with which a bucket joins that loses a record, sought over the pages of a place.
#![tactic(auto)]

mod partner;

pub use partner::find_partner;
