//! Answers with their place in the history.

/// What a call answers: the place in the history at which it is true, and the value.
#[derive(Debug, Drop, PartialEq, Eq)]
pub struct Answer<T> {
    pub at: u64,
    pub value: T,
}
