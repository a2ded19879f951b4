//! A whole file's table, told without writing.
ghost use Rattle.std.specs.Prelude.{◌≡◌, ◌≤◌, ◌+◌, ℕ, map, flat_map, fold, IsTrue, IfOk, IfErr};
ghost use Rattle.grid_types.specs.declared.sizes.TheConstants.{MOST_ATTRIBUTES};
ghost use Rattle.grid_model.specs.Images.{Found, IsFound, logged_effect};
ghost use Rattle.grid_model.specs.Lone.{record_of};
ghost use Rattle.grid_model.specs.Tables.{IsTable};
ghost use Rattle.file_images.specs.Leads.{Standing, HasStanding};
ghost use Rattle.disk_trait.specs.Calls.{OnlyReads, HasCauses};
ghost use Rattle.recovery.specs.Faults.{IsNoFaultOr};
ghost use Rattle.recovery.specs.Refusals.{MayRefuseSurvey};
ghost use Rattle.grid_check.specs.Dumps.{IsDumped, IsDumpOf, IsDumpFault, dump_pages};
ghost use Rattle.grid_check.specs.Reads.{MayRefusePages};

use crate::Dump;
use crate::gathering::put_buckets;
use crate::redoing::redo_all;
use disk_trait::{Disk, Steps};
use grid_types::{Data, Key, Record, Refusal, Rows};
use journal_slots::Batches;
use recovery::{survey_file, survey_law};
use std::alloc::{AllocError, Global};
use std::collections::BTreeMap;
use std::sync::ledger::Ledger;

/// The records of a table, in the order of their keys. Its only error is want of memory.
fn rows_of<const K: usize>(
    alloc: Global,
    table: BTreeMap<[u64; K], Data>,
) -> Result<Rows<K>, AllocError>
    requires few { K ≤ MOST_ATTRIBUTES }
    ensures { IfOk result (λ rows. rows ≡ map record_of table.entry.entries) }
{
    let mut list = Vec::with_capacity(alloc, table.len())?;
    for (numbers, value) in table {
        list.push(Record {
            key: Key { numbers },
            value,
        })?;
    }
    Ok(Rows::of(list))
}

/// The records of a table behind the updates of batches, in the order of their keys. Its only error is want of memory.
fn rows_behind<const K: usize>(
    alloc: Global,
    taken: &Batches<K>,
    table: BTreeMap<[u64; K], Data>,
) -> Result<Rows<K>, AllocError>
    requires few { K ≤ MOST_ATTRIBUTES }
    ensures { IsTable table.entry.entries
        → IfOk result (λ rows. rows ≡ map record_of
        (fold logged_effect table.entry.entries (flat_map (λ b. b.updates) taken.now))) }
{
    let mut table = table;
    redo_all(taken, &mut table)?;
    rows_of(alloc, table)
}

/// The table of a whole file, ascending by key, and its place. The file is surveyed, the bucket pages that its newest root names are
/// read in the order of their numbers, and the updates behind the root are made in their order. A file with damage that a survey
/// finds, or with a bucket page that is not spelled for its number, is refused.
pub fn dump_file<const K: usize, D: Disk, L: Ledger>(
    alloc: Global,
    disk: &mut D,
    steps: &mut Steps<L>,
) -> Result<Dump<K>, Refusal>
    ensures dumped { IsTrue (D.honest disk.old) → IfOk result (IsDumped K (D.seen disk.old)) }
    ensures stands { IsTrue (D.honest disk.old)
        → (m : Standing K)
        → HasStanding (D.seen disk.old) m
        → IfOk result (IsDumpOf m.place m.table) }
    ensures whole { IsTrue (D.honest disk.old)
        → (m : Standing K)
        → HasStanding (D.seen disk.old) m
        → IfErr result MayRefusePages }
    ensures refused { IsTrue (D.honest disk.old)
        → IfErr result (IsNoFaultOr (IsDumpFault K (D.seen disk.old))) }
    ensures same { OnlyReads D.Disk disk.old disk.new }
    ensures causes { HasCauses D.Disk MayRefuseSurvey disk.old disk.new result }
    ensures ticks { IsTrue (D.honest disk.old)
        → (f : Found K) (n : ℕ)
        → IsFound (D.seen disk.old) f n
        → steps.new ≤ steps.old + dump_pages f }
{
    survey_law::<K>();
    let survey = survey_file::<K, D, L>(alloc, disk, steps)?;
    let mut table = BTreeMap::new(alloc);
    let pages = &survey.root.table;
    if let Some(page) = put_buckets(disk, &survey.geometry, pages, &mut table, steps)? {
        return Err(Refusal::Damaged { page });
    }
    match rows_behind(alloc, &survey.taken, table) {
        Ok(rows) => Ok(Dump {
            front: survey.front,
            rows,
        }),
        Err(AllocError) => Err(Refusal::NoMemory),
    }
}
