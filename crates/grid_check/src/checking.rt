//! A whole file, checked without writing.
ghost use Rattle.std.specs.Prelude.{◌≡◌, ◌≤◌, ◌+◌, ℕ, IsTrue, IfOk, IfErr, length};
ghost use Rattle.grid_model.specs.Images.{Found, IsFound};
ghost use Rattle.file_images.specs.Leads.{Standing, HasStanding};
ghost use Rattle.disk_trait.specs.Calls.{OnlyReads, HasCauses};
ghost use Rattle.recovery.specs.Faults.{IsFirstFault, IsNoFaultOr};
ghost use Rattle.recovery.specs.Refusals.{MayRefuseSurvey};
ghost use Rattle.grid_check.specs.declared.verdict.Verdict.TheVariants.{Sound};
ghost use Rattle.grid_check.specs.Verdicts.{IsVerdict, check_pages};

use crate::judging::judge_root;
use crate::updates::{count_updates, keys_named};
use crate::verdict::Verdict;
use disk_trait::{Disk, Steps};
use grid_types::Refusal;
use recovery::survey_file;
use std::alloc::Global;
use std::sync::ledger::Ledger;

/// Checks a whole file without writing. It is surveyed, and the pages that its newest root names are judged by all rules, in
/// their order. Where none is broken, the records of the buckets and the updates behind the root say how many records the table
/// has. A file with damage that a survey finds is refused.
pub fn check_file<const K: usize, D: Disk, L: Ledger>(
    alloc: Global,
    disk: &mut D,
    steps: &mut Steps<L>,
) -> Result<Verdict, Refusal>
    ensures verdict { IsTrue (D.honest disk.old) → IfOk result (IsVerdict K (D.seen disk.old)) }
    ensures stands { IsTrue (D.honest disk.old)
        → (m : Standing K)
        → HasStanding (D.seen disk.old) m
        → IfOk result (λ v. v ≡ Sound m.place (length m.table)) }
    ensures refused { IsTrue (D.honest disk.old)
        → IfErr result (IsNoFaultOr (IsFirstFault K (D.seen disk.old))) }
    ensures same { OnlyReads D.Disk disk.old disk.new }
    ensures causes { HasCauses D.Disk MayRefuseSurvey disk.old disk.new result }
    ensures ticks { IsTrue (D.honest disk.old)
        → (f : Found K) (n : ℕ)
        → IsFound (D.seen disk.old) f n
        → steps.new ≤ steps.old + check_pages f }
{
    let survey = survey_file::<K, D, L>(alloc, disk, steps)?;
    let Ok(mut marks) = keys_named(alloc, &survey.taken) else {
        return Err(Refusal::NoMemory);
    };
    match judge_root(
        alloc,
        disk,
        &survey.geometry,
        &survey.root,
        &mut marks,
        steps,
    )? {
        None => Ok(Verdict::Sound {
            front: survey.front,
            records: count_updates(&survey.taken, &mut marks, survey.root.records),
        }),
        Some(breach) => Ok(Verdict::Unsound { breach }),
    }
}
