//! A walk through the cells that a query meets, in the order of their indices: each directory part is read once, and each
//! bucket once, however many cells share it.
ghost use Rattle.std.specs.Prelude.{◌≡◌, ◌<◌, ◌≤◌, ◌+◌, ◌*◌, ◌&&◌, ℕ, [], All, IsTrue, length, OnOk, OnErr, IfErr};
ghost use Rattle.grid_types.specs.declared.cell_box.CellBox.{CellBox};
ghost use Rattle.grid_types.specs.declared.sizes.TheConstants.{MOST_ATTRIBUTES};
ghost use Rattle.grid_types.specs.Queries.{is_lawful};
ghost use Rattle.grid_types.specs.Regions.{contains};
ghost use Rattle.grid_model.specs.Cells.{cells, dims, cell_index, InCellBox};
ghost use Rattle.grid_model.specs.Expected.{SoughtCell};
ghost use Rattle.grid_model.specs.Layouts.{Layout};
ghost use Rattle.grid_model.specs.ScaleLaws.{IsCell};
ghost use Rattle.grid_model.specs.Tables.{Table};
ghost use Rattle.query_paths.specs.Pinned.{IsPinnedTo, MakesSteps};
ghost use Rattle.query_paths.specs.Calls.{place, LeavesPlace};
ghost use Rattle.query_paths.specs.Paths.{HasQueryCause};
ghost use Rattle.query_paths.specs.Readings.{IsCellBucketRead};
ghost use Rattle.query_paths.specs.Walks.{IsHeldGood, IsHeldNow, IsWalked, IsWholeWalk, IsCutShort, HasCellCause, cells_met, AreCellsMet};

use crate::Pinned;
use crate::gathering::Gather;
use crate::reading::{read_directory, read_spelled};
use crate::room::{Held, Room};
use bucket_page::Head;
use directory_pages::{bucket_at, part_of};
use disk_trait::Steps;
use grid_types::{Key, PAGE_BYTES, Query, Refusal, Region, Side};
use std::sync::ledger::Ledger;

/// Whether the region has both corners of the other one.
fn has_corners<const K: usize>(region: &Region<K>, keys: &Region<K>) -> bool
    ensures { result ≡ (contains region.now keys.now.lo && contains region.now keys.now.hi) }
{
    region.contains(&Key { numbers: keys.lo }) && region.contains(&Key { numbers: keys.hi })
}

/// The same sides. As an array of its own it is known to have one for each attribute.
pub fn counted<const K: usize>(sides: &[Side; K]) -> &[Side]
    ensures same { result.now ≡ sides.now }
    ensures count { length sides.now ≡ K }
{
    sides
}

/// Holds the page of a part in the room, and answers which page of the file it is. It is read unless it is held already.
fn hold<const K: usize, Q: Pinned<K>, L: Ledger>(
    pinned: &mut Q,
    part: u32,
    room: &mut Room<K>,
    steps: &mut Steps<L>,
) -> Result<u32, Refusal>
    requires inside { 1000 * part < cells (Q.scales pinned.old) }
    requires few { K ≤ MOST_ATTRIBUTES }
    ensures held { IsHeldNow (place Q.Pinned pinned.old) part (Q.faults pinned.old)
        (Q.faults pinned.new) room.old room.new steps.old steps.new result }
    ensures later { Q.faults pinned.old ≤ Q.faults pinned.new }
    ensures same { LeavesPlace Q.Pinned pinned.old pinned.new }
{
    if let Some(held) = room.held {
        if held.part == part {
            return Ok(held.at);
        }
    }
    let at = read_directory(pinned, part, &mut room.part, steps)?;
    room.held = Some(Held { part, at });
    Ok(at)
}

/// Reads the page of the bucket that a directory page names at a cell, and judges it: it has to be spelled with that
/// number, and its region has to have the keys of the cell.
fn read_for_cell<const K: usize, Q: Pinned<K>, L: Ledger>(
    pinned: &mut Q,
    number: u32,
    directory: u32,
    cell: &[u32; K],
    page: &mut [u8; PAGE_BYTES],
    steps: &mut Steps<L>,
) -> Result<Head<K>, Refusal>
    requires few { K ≤ MOST_ATTRIBUTES }
    requires cell { IsCell (dims (Q.scales pinned.old)) cell.now }
    ensures read { IsCellBucketRead K (place Q.Pinned pinned.old) cell.now (Q.faults pinned.old)
        (Q.faults pinned.new) number directory page.old page.new result }
    ensures later { Q.faults pinned.old ≤ Q.faults pinned.new }
    ensures reads { MakesSteps 1 steps.old steps.new result }
    ensures same { LeavesPlace Q.Pinned pinned.old pinned.new }
{
    let keys = pinned.keys_of(cell);
    let (at, head) = read_spelled(pinned, number, directory, page, steps)?;
    if has_corners(&head.region, &keys) {
        Ok(head)
    } else {
        Err(Refusal::Damaged { page: at })
    }
}

/// Comes to a cell: reads the page of its part unless it is held, and that of the bucket that is named there unless it was
/// read, and gathers the bucket's records.
fn visit_cell<const K: usize, Q: Pinned<K>, L: Ledger, G: Gather<K>>(
    pinned: &mut Q,
    query: &Query<K>,
    cell: &[u32; K],
    index: u32,
    room: &mut Room<K>,
    gathering: &mut G,
    steps: &mut Steps<L>,
) -> Result<(), Refusal>
    requires few { K ≤ MOST_ATTRIBUTES }
    requires cell { IsCell (dims (Q.scales pinned.old)) cell.now }
    requires at { index ≡ cell_index (dims (Q.scales pinned.old)) cell.now }
    requires low { index < 1000000 }
    requires within { All (λ n. n < length room.old.marks) (Q.numbers pinned.old) }
    requires good { IsHeldGood (place Q.Pinned pinned.old) room.old }
    ensures walked { (b : CellBox K) (start : ℕ)
        → InCellBox b cell.now
        → IsWalked (place Q.Pinned pinned.old) query.now b index room.old
        start steps.old (G.holds gathering.old)
        → OnOk result (IsWalked (place Q.Pinned pinned.old) query.now b (index + 1) room.new
        start steps.new (G.holds gathering.new)) }
    ensures reads { (b : CellBox K) (L : Layout K) (t : Table) (start : ℕ)
        → IsPinnedTo (place Q.Pinned pinned.old) L t
        → InCellBox b cell.now
        → IsWalked (place Q.Pinned pinned.old) query.now b index room.old
        start steps.old (G.holds gathering.old)
        → OnErr result (IsCutShort (place Q.Pinned pinned.old) b start steps.new) }
    ensures cause { HasCellCause G.may_lack (place Q.Pinned pinned.old) cell.now
        room.new (Q.faults pinned.old) (Q.faults pinned.new) result }
    ensures good { OnOk result (IsHeldGood (place Q.Pinned pinned.old) room.new) }
    ensures marks { length room.new.marks ≡ length room.old.marks }
    ensures same { LeavesPlace Q.Pinned pinned.old pinned.new }
{
    let (part, place) = part_of(index);
    let directory = hold(pinned, part, room, steps)?;
    let number = bucket_at(&room.part, place);
    if !room.marks.has(number) {
        return Err(Refusal::Damaged { page: directory });
    }
    if room.marks.is_marked(number) {
        return Ok(());
    }
    let head = read_for_cell(pinned, number, directory, cell, &mut room.bucket, steps)?;
    let Ok(()) = gathering.gather(&room.bucket, head.count as usize, query) else {
        return Err(Refusal::NoMemory);
    };
    room.marks.mark(number);
    Ok(())
}

/// Comes to each cell that the query meets, in the order of their indices.
pub fn walk<const K: usize, Q: Pinned<K>, L: Ledger, G: Gather<K>>(
    pinned: &mut Q,
    query: &Query<K>,
    room: &mut Room<K>,
    gathering: &mut G,
    steps: &mut Steps<L>,
) -> Result<(), Refusal>
    requires few { K ≤ MOST_ATTRIBUTES }
    requires lawful { IsTrue (is_lawful query.now.sides) }
    requires within { All (λ n. n < length room.old.marks) (Q.numbers pinned.old) }
    requires nothing { G.holds gathering.old [] }
    ensures walked { OnOk result (IsWholeWalk (place Q.Pinned pinned.old) query.now
        (cells_met (Q.scales pinned.old) query.now) steps.old steps.new (G.holds gathering.new)) }
    ensures met { AreCellsMet (Q.scales pinned.old) query.now }
    ensures count { length (Q.scales pinned.old) ≡ K }
    ensures reads { (L : Layout K) (t : Table)
        → IsPinnedTo (place Q.Pinned pinned.old) L t
        → OnErr result (IsCutShort (place Q.Pinned pinned.old)
        (cells_met (Q.scales pinned.old) query.now) steps.old steps.new) }
    ensures cause { HasQueryCause K G.may_lack (place Q.Pinned pinned.old) query.now.sides
        room.new.part.value room.new.bucket.value
        (Q.faults pinned.old) (Q.faults pinned.new) result }
    ensures marks { length room.new.marks ≡ length room.old.marks }
    ensures same { LeavesPlace Q.Pinned pinned.old pinned.new }
{
    let _sides = counted(&query.sides);
    let dims = pinned.dims();
    let cells = pinned.cells_of(query);
    room.begin();
    let mut cell = cells.lo;
    'cells: loop {
        let index = dims.index(&cell);
        visit_cell(pinned, query, &cell, index, room, gathering, steps)?;
        match dims.next(&cells, &cell) {
            Some(next) => cell = next,
            None => return Ok(()),
        }
    }
}
