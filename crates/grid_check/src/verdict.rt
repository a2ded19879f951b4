//! What is said of a file that was judged.

/// What has to hold of a file's pages, in the order in which it is judged.
#[derive(Clone, Copy, Debug, PartialEq, Eq)]
pub enum Rule {
    /// Each directory page is spelled for its part.
    Part,
    /// Each cell names a number that a bucket has.
    Cell,
    /// The page of each bucket's number spells a bucket of that number.
    Bucket,
    /// Each bound of a bucket's region is an end of an interval.
    Face,
    /// The cells that name a bucket are exactly those of its region.
    Cover,
    /// The buckets have as many records as the root says.
    Records,
}

/// The first rule that is broken, and the first page that breaks it.
#[derive(Clone, Copy, Debug, PartialEq, Eq)]
pub struct Breach {
    pub page: u32,
    pub rule: Rule,
}

/// What is said of a file.
#[derive(Clone, Copy, Debug, PartialEq, Eq)]
pub enum Verdict {
    /// No rule is broken. The last update has that place, and the table has so many records there.
    Sound { front: u64, records: u64 },
    /// This is the first rule that is broken, at this page first.
    Unsound { breach: Breach },
}
