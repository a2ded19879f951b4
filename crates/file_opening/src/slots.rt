//! Where a batch stands in the journal.
ghost use Rattle.std.specs.Prelude.{◌≡◌, ◌<◌, ◌≤◌, ◌+◌, ◌*◌, ◌↔◌, ℕ, IsTrue, IfOk, IfSome, IfNone};
ghost use Rattle.grid_types.specs.declared.refusal.Refusal.TheVariants.{ReadFault};
ghost use Rattle.grid_types.specs.declared.sizes.TheConstants.{PAGE_BYTES, MOST_SLOTS};
ghost use Rattle.grid_types.specs.Halves.{half_number};
ghost use Rattle.grid_types.specs.Pages.{page_of};
ghost use Rattle.grid_types.specs.Shapes.{file_pages};
ghost use Rattle.disk_trait.specs.Calls.{OnlyReads, HasCauses};
ghost use Rattle.file_opening.specs.Slots.{SpellsBatchAt, IsSlotOf, HasNoSlotOf, IsTheSlotOf};

use disk_trait::{Disk, Steps, read_page};
use grid_types::{Geometry, HEAD_BYTES, Half, PAGE_BYTES, Refusal};
use journal_slots::{Batch, decode};
use std::sync::ledger::Ledger;

/// How many slots each half has.
fn slots_of(geometry: &Geometry) -> u32
    ensures value { result ≡ geometry.now.shape.slots }
    ensures few { result ≤ MOST_SLOTS }
{
    geometry.shape.slots
}

/// Whether a batch is of a session and begins at a place.
fn begins_at<const K: usize>(batch: &Batch<K>, session: u64, first: u64) -> bool
    ensures session { IsTrue result → batch.now.session ≡ session }
    ensures first { IsTrue result → batch.now.first ≡ first }
    ensures same { batch.now.session ≡ session → batch.now.first ≡ first → IsTrue result }
{
    batch.session == session && batch.first == first
}

/// Whether a page spells a batch of a session that begins at a place.
fn spells_at<const K: usize>(page: &[u8; PAGE_BYTES], session: u64, first: u64) -> bool
    requires few { K ≤ 4 }
    ensures there { IsTrue result → SpellsBatchAt K page.now session first }
    ensures none { SpellsBatchAt K page.now session first → IsTrue result }
{
    match decode::<K>(page) {
        Some(batch) => begins_at(&batch, session, first),
        None => false,
    }
}

/// The page of the first open slot of a half that spells a batch of a session beginning at a place, if there is one.
fn find_on_half<const K: usize, D: Disk, L: Ledger>(
    disk: &mut D,
    geometry: &Geometry,
    half: Half,
    session: u64,
    first: u64,
    steps: &mut Steps<L>,
) -> Result<Option<u32>, Refusal>
    requires size { file_pages geometry.now.shape * PAGE_BYTES ≤ D.extent disk.old }
    requires few { K ≤ 4 }
    ensures found { IsTrue (D.honest disk.old)
        → IfOk result (λ page. IfSome page
        (IsSlotOf K geometry.now.shape (D.seen disk.old) (half_number half)
        session first)) }
    ensures none { IsTrue (D.honest disk.old)
        → IfOk result (λ page. IfNone page
        (HasNoSlotOf K geometry.now.shape (D.seen disk.old) (half_number half)
        session first)) }
    ensures same { OnlyReads D.Disk disk.old disk.new }
    ensures causes { HasCauses D.Disk (λ e. e ≡ ReadFault) disk.old disk.new result }
    ensures most { steps.new ≤ steps.old + 1 + geometry.now.shape.slots }
{
    let mut gates = [0; PAGE_BYTES];
    let mut page = [0; PAGE_BYTES];
    read_page(disk, geometry.gate_page(half) as u64, &mut gates, steps)?;
    for slot in 0..slots_of(geometry) {
        if gates[HEAD_BYTES + slot as usize] != 1 {
            continue;
        }
        let at = geometry.slot_page(half, slot);
        read_page(disk, at as u64, &mut page, steps)?;
        if spells_at::<K>(&page, session, first) {
            return Ok(Some(at));
        }
    }
    Ok(None)
}

/// The page of the first open slot, in order of half and slot, that spells a batch of a session beginning at a place; and the
/// first gate page where none does.
pub(crate) fn slot_of<const K: usize, D: Disk, L: Ledger>(
    disk: &mut D,
    geometry: &Geometry,
    session: u64,
    first: u64,
    steps: &mut Steps<L>,
) -> Result<u32, Refusal>
    requires size { file_pages geometry.now.shape * PAGE_BYTES ≤ D.extent disk.old }
    requires few { K ≤ 4 }
    ensures found { IsTrue (D.honest disk.old)
        → IfOk result (IsTheSlotOf K geometry.now.shape (D.seen disk.old) session first) }
    ensures same { OnlyReads D.Disk disk.old disk.new }
    ensures causes { HasCauses D.Disk (λ e. e ≡ ReadFault) disk.old disk.new result }
    ensures most { steps.new ≤ steps.old + 2 + 2 * geometry.now.shape.slots }
{
    if let Some(page) = find_on_half::<K, D, L>(
        disk,
        geometry,
        Half::First,
        session,
        first,
        steps,
    )? {
        return Ok(page);
    }
    match find_on_half::<K, D, L>(disk, geometry, Half::Second, session, first, steps)? {
        Some(page) => Ok(page),
        None => Ok(geometry.gate_page(Half::First)),
    }
}
