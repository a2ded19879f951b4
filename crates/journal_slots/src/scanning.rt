//! The batches of a half of the journal.
ghost use Rattle.std.specs.Prelude.{◌≡◌, ◌≤◌, ◌+◌, ◌*◌, [], List, ℕ, IsTrue, IfOk, OnOk, IsErrOf, OnErr, length};
ghost use Rattle.grid_types.specs.declared.refusal.Refusal.TheVariants.{Damaged, NoMemory};
ghost use Rattle.grid_types.specs.declared.sizes.TheConstants.{PAGE_BYTES, MOST_SLOTS};
ghost use Rattle.grid_types.specs.Halves.{half_number};
ghost use Rattle.grid_types.specs.Pages.{page_of};
ghost use Rattle.grid_types.specs.Shapes.{file_pages};
ghost use Rattle.disk_trait.specs.Calls.{OnlyReads, HasCauses};
ghost use Rattle.grid_model.specs.Images.{HasGatesOf, open_slots_of};
ghost use Rattle.journal_slots.specs.declared.scan.Scan.{Scan};
ghost use Rattle.journal_slots.specs.Scans.{AreBatchesOn, IsScan, SpellsSome, IsFirstBadSlot, IsFirstBadPage, AreFirstGood, IsGoodUpTo, IsRefusalOfScan, IsMore, SpellsOf, IsToKeep, WantsMemory, AreLawfulOf, IsLawfulScan, ReadsHalf};

use crate::gates::{is_gate_page, is_open, slots_in_use};
use crate::{Batches, Scan, decode};
use disk_trait::{Disk, Steps, read_page};
use grid_types::{Geometry, HEAD_BYTES, Half, PAGE_BYTES, Refusal};
use std::alloc::Global;
use std::sync::ledger::Ledger;

/// Adds the batch of a slot to those that were found, if it is of the session.
fn scan_slot<const K: usize, D: Disk, L: Ledger>(
    disk: &mut D,
    page: u32,
    session: u64,
    found: &mut Batches<K>,
    steps: &mut Steps<L>,
) -> Result<(), Refusal>
    requires few { K ≤ 4 }
    requires size { page * PAGE_BYTES + PAGE_BYTES ≤ D.extent disk.old }
    ensures found { IsTrue (D.honest disk.old)
        → OnOk result (IsMore (page_of page (D.seen disk.old)) session found.old found.new) }
    ensures damaged { IsTrue (D.honest disk.old)
        → (p : ℕ)
        → IsErrOf result (Damaged p)
        → (p ≡ page) × (SpellsSome K (page_of page (D.seen disk.old)) → ⊥) }
    ensures no_memory { IsTrue (D.honest disk.old)
        → IsErrOf result NoMemory
        → SpellsOf K (page_of page (D.seen disk.old)) session }
    ensures lawful { AreLawfulOf session found.old → AreLawfulOf session found.new }
    ensures causes { HasCauses D.Disk IsRefusalOfScan disk.old disk.new result }
    ensures ticks { steps.new ≡ steps.old + 1 }
    ensures same { OnlyReads D.Disk disk.old disk.new }
{
    let mut bytes = [0; PAGE_BYTES];
    read_page(disk, page as u64, &mut bytes, steps)?;
    let Some(batch) = decode(&bytes) else {
        return Err(Refusal::Damaged { page });
    };
    if batch.session != session {
        return Ok(());
    }
    found.push(batch).map_err(|_| Refusal::NoMemory)
}

/// The batches of the session on the slots of a half whose gates are open, in order.
fn scan_slots<const K: usize, D: Disk, L: Ledger>(
    disk: &mut D,
    geometry: &Geometry,
    half: Half,
    gates: &[u8],
    session: u64,
    found: &mut Batches<K>,
    steps: &mut Steps<L>,
) -> Result<(), Refusal>
    requires size { file_pages geometry.now.shape * PAGE_BYTES ≤ D.extent disk.old }
    requires few { K ≤ 4 }
    requires gates { length gates.now ≡ geometry.now.shape.slots }
    requires empty { found.old ≡ [] }
    ensures found { IsTrue (D.honest disk.old)
        → OnOk result (AreBatchesOn geometry.now.shape (D.seen disk.old)
        (open_slots_of gates.now (half_number half)) session found.new) }
    ensures damaged { IsTrue (D.honest disk.old)
        → (p : ℕ)
        → IsErrOf result (Damaged p)
        → IsFirstBadSlot K geometry.now.shape (D.seen disk.old) (half_number half) gates.now p }
    ensures no_memory { IsTrue (D.honest disk.old)
        → IsErrOf result NoMemory
        → IsToKeep K geometry.now.shape (D.seen disk.old) (half_number half) gates.now session }
    ensures before { IsTrue (D.honest disk.old)
        → (n : ℕ)
        → steps.new ≡ steps.old + n + 1
        → OnErr result (AreFirstGood K geometry.now.shape (D.seen disk.old) (half_number half)
        gates.now n) }
    ensures lawful { OnOk result (AreLawfulOf session found.new) }
    ensures causes { HasCauses D.Disk IsRefusalOfScan disk.old disk.new result }
    ensures ticks { steps.old ≤ steps.new }
    ensures all { OnOk result
        (steps.new ≡ steps.old + length (open_slots_of gates.now (half_number half))) }
    ensures most { steps.new ≤ steps.old + geometry.now.shape.slots }
    ensures same { OnlyReads D.Disk disk.old disk.new }
{
    for slot in 0..geometry.shape.slots {
        if !is_open(gates[slot as usize]) {
            continue;
        }
        let page = geometry.slot_page(half, slot);
        scan_slot(disk, page, session, found, steps)?;
    }
    Ok(())
}

/// How many slots each half has.
fn slots_of(geometry: &Geometry) -> u32
    ensures value { result ≡ geometry.now.shape.slots }
    ensures few { result ≤ MOST_SLOTS }
{
    geometry.shape.slots
}

/// The batches of a session in a half of the journal: those on the slots whose gates are open, in order; and how many slots
/// are in use. An open gate is 1. A page that spells nothing where it has to is named; the first such page ends the scan.
/// Where the scan is refused, the pages that it read before the last one were good. What it gives is lawful, whatever the
/// disk tells.
pub fn scan_half<const K: usize, D: Disk, L: Ledger>(
    alloc: Global,
    disk: &mut D,
    geometry: &Geometry,
    half: Half,
    session: u64,
    steps: &mut Steps<L>,
) -> Result<Scan<K>, Refusal>
    requires size { file_pages geometry.now.shape * PAGE_BYTES ≤ D.extent disk.old }
    requires few { K ≤ 4 }
    ensures found { IsTrue (D.honest disk.old)
        → IfOk result (IsScan geometry.now.shape (D.seen disk.old) (half_number half) session) }
    ensures only { IsTrue (D.honest disk.old)
        → IfOk result (λ scan. (other : Scan K)
        → IsScan geometry.now.shape (D.seen disk.old) (half_number half) session other
        → scan ≡ other) }
    ensures damaged { IsTrue (D.honest disk.old)
        → (p : ℕ)
        → IsErrOf result (Damaged p)
        → IsFirstBadPage K geometry.now.shape (D.seen disk.old) (half_number half) p }
    ensures no_memory { IsTrue (D.honest disk.old)
        → IsErrOf result NoMemory
        → WantsMemory K geometry.now.shape (D.seen disk.old) (half_number half) session }
    ensures before { IsTrue (D.honest disk.old)
        → (n : ℕ)
        → steps.new ≡ steps.old + n + 1
        → OnErr result
        (IsGoodUpTo K geometry.now.shape (D.seen disk.old) (half_number half) n) }
    ensures lawful { IfOk result (IsLawfulScan geometry.now.shape session) }
    ensures causes { HasCauses D.Disk IsRefusalOfScan disk.old disk.new result }
    ensures reads { ReadsHalf geometry.now.shape steps.old steps.new }
    ensures ticks { IsTrue (D.honest disk.old)
        → OnOk result ((gates : List ℕ)
        → HasGatesOf geometry.now.shape (D.seen disk.old) (half_number half) gates
        → steps.new ≡ steps.old + 1 + length (open_slots_of gates (half_number half))) }
    ensures same { OnlyReads D.Disk disk.old disk.new }
{
    let mut bytes = [0; PAGE_BYTES];
    let gate_page = geometry.gate_page(half);
    read_page(disk, gate_page as u64, &mut bytes, steps)?;
    let slots = slots_of(geometry);
    if !is_gate_page(&bytes, half, slots) {
        return Err(Refusal::Damaged { page: gate_page });
    }
    let mut found = Batches::new(alloc);
    let gates = &bytes[HEAD_BYTES..HEAD_BYTES + slots as usize];
    scan_slots(disk, geometry, half, gates, session, &mut found, steps)?;
    let used = slots_in_use(gates) as u32;
    Ok(Scan {
        batches: found,
        used,
    })
}
