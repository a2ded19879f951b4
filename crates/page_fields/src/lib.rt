//! Numbers and fields in the bytes of a page, the highest byte first. A page is written in place, field by field, and
//! judged by whole slices and by words.
#![tactic(auto)]

mod corner;
mod judging;
mod laws;
mod numbers;
mod words;
mod writing;

pub use corner::get_corner;
pub use judging::zeros;
pub use laws::number_law;
pub use numbers::{get_u16, get_u32, get_u64, set_u16, set_u32, set_u64};
pub use writing::{put_bytes, put_corner, put_numbers, put_words, put_zeros};
