//! What the grid file means: definitions in `specs/`, and their laws as the contracts of functions without code.
#![tactic(auto)]

mod buckets;
mod cuts;
mod layouts;
mod lone;
mod merging;
mod passes;
mod scales;
mod scripts;
mod tables;

pub use buckets::bucket_law;
pub use cuts::{cut_law, least_law};
pub use layouts::{layout_law, region_law, unused_law};
pub use lone::lone_law;
pub use merging::merge_law;
pub use passes::{pass_law, renaming_law};
pub use scales::{cell_law, scale_law};
pub use scripts::{script_law, text_law};
pub use tables::{listing_law, state_law, table_law};
