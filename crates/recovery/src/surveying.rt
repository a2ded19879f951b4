//! A file is judged before it is opened: its shape, its newest root, its journal, in this order.
ghost use Rattle.std.specs.Prelude.{◌≡◌, ◌≤◌, ◌+◌, ◌*◌, ℕ, IsTrue, IfOk, IfErr, IsErrOf};
ghost use Rattle.grid_types.specs.declared.refusal.Refusal.TheVariants.{Damaged, NoMemory, ReadFault};
ghost use Rattle.grid_types.specs.declared.sizes.TheConstants.{PAGE_BYTES};
ghost use Rattle.grid_types.specs.declared.shape.Shape.{Shape};
ghost use Rattle.grid_types.specs.Shapes.{file_pages};
ghost use Rattle.disk_trait.specs.Calls.{OnlyReads, HasCauses};
ghost use Rattle.journal_slots.specs.Scans.{IsRefusalOfScan};
ghost use Rattle.recovery.specs.Beginnings.{BeginsWhole};
ghost use Rattle.recovery.specs.Faults.{IsJournalDamage, IsFirstFault, IsNoFaultOr, HasNewestRoot};
ghost use Rattle.recovery.specs.Reads.{IsJournalGoodUpTo, AreGoodUpTo};
ghost use Rattle.recovery.specs.Refusals.{MayRefuseSurvey};
ghost use Rattle.recovery.specs.Surveys.{IsJournal, IsLawfulJournal, IsSurvey, IsLawfulSurvey, survey_pages};

use crate::joining::join;
use crate::journal::Journal;
use crate::rooting::read_rooted;
use crate::survey::Survey;
use disk_trait::{Disk, Steps};
use grid_types::{Geometry, Half, PAGE_BYTES, Refusal};
use journal_slots::scan_half;
use std::alloc::{AllocError, Global};
use std::sync::ledger::Ledger;

/// The batches of a session in both halves of the journal, the first half's and then the second's.
fn read_journal<const K: usize, D: Disk, L: Ledger>(
    alloc: Global,
    disk: &mut D,
    geometry: &Geometry,
    session: u64,
    steps: &mut Steps<L>,
) -> Result<Journal<K>, Refusal>
    requires size { file_pages geometry.now.shape * PAGE_BYTES ≤ D.extent disk.old }
    requires few { K ≤ 4 }
    ensures found { IsTrue (D.honest disk.old)
        → IfOk result (IsJournal geometry.now.shape (D.seen disk.old) session) }
    ensures damaged { IsTrue (D.honest disk.old)
        → (p : ℕ)
        → IsErrOf result (Damaged p)
        → IsJournalDamage K geometry.now.shape (D.seen disk.old) p }
    ensures before { IsTrue (D.honest disk.old)
        → IsErrOf result ReadFault
        → (n : ℕ)
        → steps.new ≡ steps.old + n + 1
        → IsJournalGoodUpTo K geometry.now.shape (D.seen disk.old) n }
    ensures causes { HasCauses D.Disk IsRefusalOfScan disk.old disk.new result }
    ensures lawful { IfOk result (IsLawfulJournal geometry.now.shape session) }
    ensures least { steps.old + 1 ≤ steps.new }
    ensures most { steps.new ≤ steps.old + 2 + 2 * geometry.now.shape.slots }
    ensures same { OnlyReads D.Disk disk.old disk.new }
{
    let first = scan_half(alloc, disk, geometry, Half::First, session, steps)?;
    let second = scan_half(alloc, disk, geometry, Half::Second, session, steps)?;
    let mut batches = first.batches;
    match batches.append(second.batches) {
        Ok(()) => Ok(Journal {
            batches,
            used: [first.used, second.used],
        }),
        Err(AllocError) => Err(Refusal::NoMemory),
    }
}

/// Looks at a file before it is opened: its shape, its newest root with the table area, and its journal, from which it takes
/// the batches that join the root. It names the first damage, and reads neither directory nor bucket pages, and each page
/// that it reads once.
pub fn survey_file<const K: usize, D: Disk, L: Ledger>(
    alloc: Global,
    disk: &mut D,
    steps: &mut Steps<L>,
) -> Result<Survey<K>, Refusal>
    ensures found { IsTrue (D.honest disk.old) → IfOk result (IsSurvey (D.seen disk.old)) }
    ensures first { IsTrue (D.honest disk.old)
        → IfErr result (IsNoFaultOr (IsFirstFault K (D.seen disk.old))) }
    ensures no_memory { IsTrue (D.honest disk.old)
        → IsErrOf result NoMemory
        → HasNewestRoot K (D.seen disk.old) }
    ensures before { IsTrue (D.honest disk.old)
        → IsErrOf result ReadFault
        → (n : ℕ)
        → steps.new ≡ steps.old + n + 1
        → AreGoodUpTo K (D.seen disk.old) n }
    ensures lawful { IfOk result (IsLawfulSurvey (D.extent disk.old)) }
    ensures same { OnlyReads D.Disk disk.old disk.new }
    ensures causes { HasCauses D.Disk MayRefuseSurvey disk.old disk.new result }
    ensures ticks { IfOk result (λ s. steps.new ≤ steps.old + survey_pages s.geometry.shape) }
    ensures most { IsTrue (D.honest disk.old)
        → (s : Shape)
        → BeginsWhole (D.seen disk.old) s
        → steps.new ≤ steps.old + survey_pages s }
{
    let rooted = read_rooted(alloc, disk, steps)?;
    let session = rooted.root.session;
    let journal = read_journal(alloc, disk, &rooted.geometry, session, steps)?;
    let used = journal.used;
    let joined = match join(alloc, journal.batches, rooted.root.front) {
        Ok(joined) => joined,
        Err(AllocError) => return Err(Refusal::NoMemory),
    };
    Ok(Survey {
        geometry: rooted.geometry,
        root: rooted.root,
        taken: joined.taken,
        front: joined.front,
        used,
    })
}
