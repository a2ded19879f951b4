//! The laws of a disk that meets what a file keeps, as contracts of functions without code.
ghost use Rattle.file_images.specs.MeetingLaws.{CoversLess, MeetingStands, NewFilesMeet};

use disk_trait::Disk;

/// The law of covering: less may be asked of an image than it shows.
pub fn covering_law<const K: usize>()
    ensures { CoversLess K }
{}

/// The law of meeting: what a disk meets it goes on meeting where less is asked; and each image that a crash may leave of
/// it has the standing of what is kept.
pub fn meeting_law<const K: usize, D: Disk>()
    ensures { MeetingStands K D.Disk }
{}

/// The law of new disks: a disk on which a new file is meets what a new file keeps, and each
/// image that a crash leaves of it has its standing.
pub fn new_disk_law<const K: usize, D: Disk>()
    ensures { NewFilesMeet K D.Disk }
{}
