//! Directory pages: a thousand cells make a part of the directory, and the page of a part has the bucket number of each
//! of its cells.
#![tactic(auto)]

mod cell_boxes;
mod cells;
mod laws;
mod parts;
mod patching;
mod reading;
mod writing;

pub use cell_boxes::patch_cell_box;
pub use cells::{bucket_at, set_bucket};
pub use laws::spelling_law;
pub use parts::part_of;
pub use patching::patch;
pub use reading::is_directory_page;
pub use writing::encode;

#[cfg(test)]
mod cell_box_tests;
#[cfg(test)]
mod tests;
