//! The roots of a file: a header page says which root is the newest, and a table area has its scales, and where its
//! directory and its buckets stand.
#![tactic(auto)]

mod area_pages;
mod choosing;
mod closing;
mod gathering;
mod header;
mod judging;
mod laws;
mod reading;
mod replacing;
mod root;

pub use area_pages::{write_area, write_area_page};
pub use closing::close_root;
pub use header::write_header;
pub use laws::{area_law, damage_law, replacing_law, uniqueness_law};
pub use reading::{read_newest, read_newest_from};
pub use replacing::write_root;
pub use root::header_of;

#[cfg(test)]
mod tests;
