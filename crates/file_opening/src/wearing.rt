//! Numbers that may not rise any more.
ghost use Rattle.std.specs.Prelude.{◌≡◌, ◌<◌, ◌≤◌, ◌+◌, ◌^◌, ℕ, IfSome, IfNone, List, IsTrue, IfOk, IfErr};
ghost use Rattle.disk_trait.specs.Calls.{OnlyReads, HasCauses};
ghost use Rattle.recovery.specs.Faults.{IsNoFaultOr};
ghost use Rattle.recovery.specs.Surveys.{IsSurvey, IsLawfulSurvey, survey_pages};
ghost use Rattle.file_opening.specs.Refusals.{IsWorn, IsUnworn, IsRefused, MayRefuseOpening};

use disk_trait::{Disk, Steps};
use grid_types::Refusal;
use recovery::{Survey, survey_file};
use std::alloc::Global;
use std::sync::ledger::Ledger;

/// An opening needs a root number and a session below this one, since it makes the next of both.
const WORN: u64 = 1 << 62;

/// The number of a root for which it is worn, if it is: its own, or else its session's.
fn worn(number: u64, session: u64) -> Option<u64>
    ensures worn { IfSome result (IsWorn number session) }
    ensures unworn { IfNone result (IsUnworn number session) }
{
    if number >= WORN {
        Some(number)
    } else if session >= WORN {
        Some(session)
    } else {
        None
    }
}

/// Looks at a file, and refuses it also where its newest root is worn.
pub(crate) fn survey_unworn<const K: usize, D: Disk, L: Ledger>(
    alloc: Global,
    disk: &mut D,
    steps: &mut Steps<L>,
) -> Result<Survey<K>, Refusal>
    ensures found { IsTrue (D.honest disk.old) → IfOk result (IsSurvey (D.seen disk.old)) }
    ensures lawful { IfOk result (IsLawfulSurvey (D.extent disk.old)) }
    ensures unworn { IfOk result (λ s. IsUnworn s.root.number s.root.session) }
    ensures refused { IsTrue (D.honest disk.old)
        → IfErr result (IsNoFaultOr (IsRefused K (D.seen disk.old))) }
    ensures same { OnlyReads D.Disk disk.old disk.new }
    ensures causes { HasCauses D.Disk MayRefuseOpening disk.old disk.new result }
    ensures ticks { IfOk result (λ s. steps.new ≤ steps.old + survey_pages s.geometry.shape) }
{
    let survey = survey_file(alloc, disk, steps)?;
    match worn(survey.root.number, survey.root.session) {
        None => Ok(survey),
        Some(count) => Err(Refusal::Worn { count }),
    }
}
