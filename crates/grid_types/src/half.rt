//! The halves of the journal.

/// A half of the journal.
#[derive(Clone, Copy, Debug, PartialEq, Eq)]
pub enum Half {
    First,
    Second,
}
