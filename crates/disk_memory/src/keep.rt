//! What is kept at a crash.

/// What a crash leaves of the bytes that are not on the disk yet.
#[derive(Clone, Copy, Debug, PartialEq, Eq)]
pub enum Keep {
    /// All of them.
    All,
    /// None of them: in their place stands what was there at the last sync.
    None,
    /// Others in their place, which are neither what reads give nor what was there at the last sync.
    Changed,
}
