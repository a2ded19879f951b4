//! The books of a file: what memory keeps of it, what each step makes of them, and what they say of the file. Of code it has
//! one type alone.
#![tactic(auto)]

mod record_change;

pub use record_change::RecordChange;
