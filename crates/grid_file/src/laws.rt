//! The laws of an open file, as contracts of functions without code.
ghost use Rattle.grid_file.specs.FileLaws.{ReadingsTell, WritingStands};
ghost use Rattle.grid_file.specs.RedoLaws.{RedoReadingsTell, WritingGoesOn};

use disk_trait::Disk;

/// The law of reading: where a file is open at a standing, the pages of its front are those of the standing's layout and
/// table.
pub fn reading_law<const K: usize, D: Disk>()
    ensures { ReadingsTell K D.Disk }
{}

/// The law of writing: what the writing of a change has written reads as a commit asks, and until the change is committed a
/// crash leaves the standing of before, whether it is done, fails, or is cut off.
pub fn written_law<const K: usize, D: Disk>()
    ensures { WritingStands K D.Disk }
{}

/// The law of reading while a journal is redone: the pages of the front are those of where the redo stands.
pub fn redo_reading_law<const K: usize, D: Disk>()
    ensures { RedoReadingsTell K D.Disk }
{}

/// The law of writing beside pages that are fresh already, as where a journal is redone: the new pages read as they were
/// written, the fresh ones still do, and a crash leaves what it did.
pub fn redo_written_law<const K: usize, D: Disk>()
    ensures { WritingGoesOn K D.Disk }
{}
