//! How a command ends.
ghost use Rattle.std.specs.Prelude.{◌≡◌, ◌⊎◌, max};
ghost use Rattle.grid_shell.specs.Statuses.{IsStatus, status_of_refusal, status_of_reply, greatest_status};

use grid_types::{Refusal, Reply};

/// How a command ends. Each ending has its status.
#[derive(Clone, Copy, Debug, PartialEq, Eq)]
pub enum Ending {
    /// All was done and answered.
    Done,
    /// The words are none of the written forms.
    BadWords,
    /// The first line of the script that the program refuses; 0 where the script is too long.
    BadScript { line: u64 },
    /// The file is none of ours.
    ForeignFile,
    /// The file has a version that is not known.
    OtherVersion { found: u16 },
    /// The bytes of that page of the file are not what they have to be.
    DamagedFile { page: u32 },
    /// The file has another number of attributes than its header said at first.
    OtherArity { found: u8 },
    /// The file can't be opened once more, since a number reached its limit.
    WornFile { count: u64 },
    /// A line met a page whose bytes are not what they have to be.
    Damaged,
    /// The bay, a disk, the input or the output failed.
    Device,
    /// There was no memory.
    Memory,
    /// A line was refused.
    Refused,
    /// A line may be in the file or not, or met a session that had stopped.
    Unsure,
}

impl Ending {
    ghost use Rattle.grid_shell.specs.Endings.{status_of, with_fault, unopened, IsOfLines};

    /// The status that the process ends with.
    pub fn status(self) -> u8
        ensures value { result ≡ status_of self }
        ensures known { IsStatus result }
    {
        match self {
            Ending::Done => 0,
            Ending::BadWords => 2,
            Ending::BadScript { .. } => 3,
            Ending::ForeignFile
            | Ending::OtherVersion { .. }
            | Ending::DamagedFile { .. }
            | Ending::OtherArity { .. }
            | Ending::Damaged => 4,
            Ending::Device => 5,
            Ending::Memory => 6,
            Ending::WornFile { .. } | Ending::Refused => 7,
            Ending::Unsure => 8,
        }
    }

    /// The ending where a device has failed too. What ended a run before its first line stays.
    pub fn with_fault(self) -> Ending
        ensures { result ≡ with_fault self }
    {
        match self {
            Ending::Done | Ending::Damaged => Ending::Device,
            other => other,
        }
    }

    /// The ending of a file that is not opened.
    pub fn unopened(refusal: Refusal) -> Ending
        ensures { result ≡ unopened refusal }
    {
        match refusal {
            Refusal::NoMemory => Ending::Memory,
            Refusal::ReadFault | Refusal::WriteFault => Ending::Device,
            Refusal::Unsure { .. } | Refusal::Stopped { .. } => Ending::Unsure,
            Refusal::Foreign => Ending::ForeignFile,
            Refusal::Version { found } => Ending::OtherVersion { found },
            Refusal::Damaged { page } => Ending::DamagedFile { page },
            Refusal::Arity { found } => Ending::OtherArity { found },
            Refusal::Worn { count } => Ending::WornFile { count },
            Refusal::Full { .. }
            | Refusal::NoCut { .. }
            | Refusal::Seats
            | Refusal::BadShape
            | Refusal::BadQuery => Ending::Refused,
        }
    }

    /// The one of greater status.
    fn or_worse(self, other: Ending) -> Ending
        ensures status { status_of result ≡ max (status_of self) (status_of other) }
        ensures one { (result ≡ self) ⊎ (result ≡ other) }
    {
        if self.status() < other.status() {
            other
        } else {
            self
        }
    }

    fn of_refusal(refusal: &Refusal) -> Ending
        ensures status { status_of result ≡ status_of_refusal refusal.now }
        ensures line { IsOfLines result }
    {
        match refusal {
            Refusal::NoMemory => Ending::Memory,
            Refusal::ReadFault | Refusal::WriteFault => Ending::Done,
            Refusal::Unsure { .. } | Refusal::Stopped { .. } => Ending::Unsure,
            Refusal::Damaged { .. }
            | Refusal::Foreign
            | Refusal::Version { .. }
            | Refusal::Arity { .. } => Ending::Damaged,
            Refusal::Full { .. }
            | Refusal::NoCut { .. }
            | Refusal::Seats
            | Refusal::BadShape
            | Refusal::BadQuery
            | Refusal::Worn { .. } => Ending::Refused,
        }
    }

    fn of_line<const K: usize>(reply: &Reply<K>) -> Ending
        ensures status { status_of result ≡ status_of_reply reply.now }
        ensures line { IsOfLines result }
    {
        match reply {
            Reply::Put(_)
            | Reply::Removed(_)
            | Reply::Got(_)
            | Reply::Listed(_)
            | Reply::Counted(_)
            | Reply::Stood(_)
            | Reply::Rooted(_) => Ending::Done,
            Reply::Refused(refusal) => Ending::of_refusal(refusal),
        }
    }

    /// The ending of greatest status that the lines make.
    pub fn worst<const K: usize>(replies: &[Reply<K>]) -> Ending
        ensures status { status_of result ≡ greatest_status replies.now }
        ensures line { IsOfLines result }
    {
        let mut worst = Ending::Done;
        for reply in replies {
            worst = worst.or_worse(Ending::of_line(reply));
        }
        worst
    }
}
