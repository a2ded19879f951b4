//! The laws of what a file keeps, as contracts of functions without code.
ghost use Rattle.file_images.specs.KeptLaws.{WritesApartLeave, ShownStands, DoubtLeadsOn, CommittingShows, ClearingShows, TurningShows, RootStepsShow, RootMomentsShow};
ghost use Rattle.file_images.specs.NewFiles.{NewFilesStand};

/// The law of pages apart: a write on a page of which nothing is kept leaves what an image shows.
pub fn apart_law<const K: usize>()
    ensures { WritesApartLeave K }
{}

/// The law of standings: an image that shows what a file keeps has the standing to which that leads, or the one behind the
/// batch in doubt.
pub fn standing_law<const K: usize>()
    ensures { ShownStands K }
{}

/// The law of doubt: what becomes of a batch in doubt decides where a root leads, and along what.
pub fn doubt_law<const K: usize>()
    ensures { DoubtLeadsOn K }
{}

/// The law of commits: while a batch is committed on the next slot it is in doubt, and then it counts.
pub fn commit_law<const K: usize>()
    ensures { CommittingShows K }
{}

/// The laws of halves: gates that are closed may be anything until they are 0; and the halves' roles may be exchanged.
pub fn half_law<const K: usize>()
    ensures cleared { ClearingShows K }
    ensures turned { TurningShows K }
{}

/// The laws of root steps: they change what is shown of the roots alone; and what is shown at each of their moments.
pub fn root_law<const K: usize>()
    ensures alone { RootStepsShow K }
    ensures moments { RootMomentsShow K }
{}

/// The law of new files: the image of a new file shows what a new file keeps, and has the standing to which that leads: at
/// place 0 the empty table, with the layout of a new file.
pub fn new_file_law<const K: usize>()
    ensures { NewFilesStand K }
{}
