//! Why a call may be refused.

/// A refusal with its cause. None of them loses anything that stood before.
#[derive(Clone, Copy, Debug, PartialEq, Eq)]
pub enum Refusal {
    /// There was no memory.
    NoMemory,
    /// The disk failed to read.
    ReadFault,
    /// The disk failed to write or to sync.
    WriteFault,
    /// The update's batch failed: it is in the file as a whole or not at all.
    Unsure { faults: u64, before: u64 },
    /// A batch failed earlier in this session, which takes no update since.
    Stopped { faults: u64, opened: u64 },
    /// There are fewer free pages than the change needs.
    Full { free: u32, need: u32 },
    /// The bucket is full, and no cut divides its records within the limits.
    NoCut { cells: u32, boundaries: u32 },
    /// The bytes of that page of the file are not what they have to be.
    Damaged { page: u32 },
    /// The file is none of ours.
    Foreign,
    /// The file has a version that is not known.
    Version { found: u16 },
    /// All seats are taken.
    Seats,
    /// The shape is outside its limits.
    BadShape,
    /// A side of the query ends below its begin.
    BadQuery,
    /// A number reached its limit.
    Worn { count: u64 },
    /// The file has another number of attributes.
    Arity { found: u8 },
}
