//! What a page of a new file has.

use grid_types::Half;

/// What a page of a new file has.
#[derive(Clone, Copy, Debug, PartialEq, Eq)]
pub enum Content {
    /// The shape, an open gate, and the fields of the first root.
    Root,
    /// The shape alone.
    Front,
    /// That page of the first root's table area.
    Area(u32),
    /// The gates of a half of the journal.
    Gates(Half),
    /// The directory's one part.
    Directory,
    /// The one bucket.
    FirstBucket,
    Zeros,
}
