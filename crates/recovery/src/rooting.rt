//! The first pages of a file: both header pages, and the table area of its newest root.
ghost use Rattle.std.specs.Prelude.{◌≡◌, ◌≤◌, ◌+◌, ℕ, IsTrue, IfOk, IfErr, IsErrOf};
ghost use Rattle.grid_types.specs.declared.refusal.Refusal.TheVariants.{NoMemory, ReadFault};
ghost use Rattle.grid_types.specs.declared.shape.Shape.{Shape};
ghost use Rattle.grid_types.specs.declared.sizes.TheConstants.{PAGE_BYTES};
ghost use Rattle.grid_types.specs.Shapes.{area_pages};
ghost use Rattle.disk_trait.specs.Calls.{OnlyReads, HasCauses};
ghost use Rattle.recovery.specs.Beginnings.{BeginsWhole};
ghost use Rattle.recovery.specs.Faults.{IsFirstFault, IsNoFaultOr, HasNewestRoot};
ghost use Rattle.recovery.specs.Reads.{AreGoodUpTo};
ghost use Rattle.recovery.specs.Refusals.{MayRefuseSurvey};
ghost use Rattle.recovery.specs.Surveys.{IsRooted, IsLawfulRooted};

use crate::rooted::Rooted;
use crate::shape::read_headers;
use disk_trait::{Disk, Steps};
use file_roots::read_newest_from;
use grid_types::{PAGE_BYTES, Refusal};
use std::alloc::Global;
use std::sync::ledger::Ledger;

/// The shape of a file and its newest root. Each header page is read once, and then the table area in order; the two pages
/// are let go before the journal is looked at.
pub fn read_rooted<const K: usize, D: Disk, L: Ledger>(
    alloc: Global,
    disk: &mut D,
    steps: &mut Steps<L>,
) -> Result<Rooted<K>, Refusal>
    ensures found { IsTrue (D.honest disk.old) → IfOk result (IsRooted (D.seen disk.old)) }
    ensures first { IsTrue (D.honest disk.old)
        → IfErr result (IsNoFaultOr (IsFirstFault K (D.seen disk.old))) }
    ensures no_memory { IsTrue (D.honest disk.old)
        → IsErrOf result NoMemory
        → HasNewestRoot K (D.seen disk.old) }
    ensures before { IsTrue (D.honest disk.old)
        → IsErrOf result ReadFault
        → (n : ℕ)
        → steps.new ≡ steps.old + n + 1
        → AreGoodUpTo K (D.seen disk.old) n }
    ensures lawful { IfOk result (IsLawfulRooted (D.extent disk.old)) }
    ensures same { OnlyReads D.Disk disk.old disk.new }
    ensures causes { HasCauses D.Disk MayRefuseSurvey disk.old disk.new result }
    ensures ticks { IfOk result (λ r. steps.new ≡ steps.old + 2 + area_pages r.geometry.shape) }
    ensures most { IsTrue (D.honest disk.old)
        → (s : Shape)
        → BeginsWhole (D.seen disk.old) s
        → steps.new ≤ steps.old + 2 + area_pages s }
{
    let mut zeroth = [0; PAGE_BYTES];
    let mut first = [0; PAGE_BYTES];
    let geometry = read_headers(disk, &mut zeroth, &mut first, steps)?;
    if geometry.shape.k as usize != K {
        return Err(Refusal::Arity {
            found: geometry.shape.k,
        });
    }
    let root = read_newest_from(alloc, disk, &geometry, &zeroth, &first, steps)?;
    Ok(Rooted { geometry, root })
}
