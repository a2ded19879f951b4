//! Bucket pages: a bucket as the bytes of a page, both ways; a page judged, searched, read and changed where it lies; and a
//! bucket in memory as a table.
#![tactic(auto)]

mod bucket;
mod head;
mod judging;
mod laws;
mod matching;
mod parting;
mod putting;
mod reading;
mod record;
mod search;
mod searching;
mod table;
mod taking;
mod writing;

pub use bucket::{Bucket, MOST_IN_MEMORY};
pub use head::Head;
pub use judging::judge;
pub use laws::spelling_law;
pub use matching::{count_matching, push_matching};
pub use putting::{insert_into, replace_into};
pub use reading::decode;
pub use searching::{data_on, find_on, get_on, record_on};
pub use taking::remove_into;
pub use writing::encode;

#[cfg(test)]
mod tests;
