//! The laws of where a file stands, as contracts of functions without code.
ghost use Rattle.file_standing.specs.FileLaws.{ClaimedUnkept, CommitStands, FilesLead, PageStepsStay, RootStepStands};

/// The law of leading: each root that may be the newest leads to the standing of its file; and of a claimed page nothing
/// is known, so that it may be written.
pub fn lead_law<const K: usize>()
    ensures leads { FilesLead K }
    ensures unkept { ClaimedUnkept K }
{}

/// The law of page steps: sweeps, claims and what is given back leave a file where it stands, and a lone caller's state as
/// it is.
pub fn page_step_law<const K: usize>()
    ensures { PageStepsStay K }
{}

/// The law of commits: while the batch of a change is committed, all leads to the standing before it or to the one behind
/// it; then the file stands behind it, and a lone caller's state is the one after the update.
pub fn commit_law<const K: usize>()
    ensures { CommitStands K }
{}

/// The law of root steps: they leave a file where it stands at each of their points, and a lone caller's state as the one
/// after a root step.
pub fn root_step_law<const K: usize>()
    ensures { RootStepStands K }
{}
