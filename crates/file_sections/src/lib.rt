//! The sections of a file: each call that reads, writes or syncs, as what it makes of what the file keeps.
#![tactic(auto)]

mod data_pages;
mod journal;
mod roots;

pub use data_pages::{read_page, sync, write_data_page};
pub use journal::{clear_half, commit};
pub use roots::{close_root, finish_root, write_part};
