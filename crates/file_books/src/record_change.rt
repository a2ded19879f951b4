//! What an update does to the number of records.

/// What an update does to the number of records: one more, the same, or one fewer.
#[derive(Clone, Copy, Debug, PartialEq, Eq)]
pub enum RecordChange {
    More,
    Same,
    Fewer,
}
