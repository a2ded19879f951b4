//! A whole file judged without writing: its directory pages and its bucket pages, each against what its newest root says.
#![tactic(auto)]

mod buckets;
mod cells;
mod checking;
mod covers;
mod dump;
mod dumping;
mod faces;
mod gathering;
mod holding;
mod judging;
mod marks;
mod numbers;
mod parts;
mod records;
mod redoing;
mod updates;
mod verdict;

pub use buckets::first_bad_bucket;
pub use cells::first_bad_cell;
pub use checking::check_file;
pub use covers::first_bad_cover;
pub use dump::Dump;
pub use dumping::dump_file;
pub use faces::first_bad_face;
pub use holding::Holding;
pub use parts::first_bad_part;
pub use records::count_records;
pub use verdict::{Breach, Rule, Verdict};
