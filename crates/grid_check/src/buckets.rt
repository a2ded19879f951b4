//! The bucket pages of a file, judged in the order of their numbers.
ghost use Rattle.std.specs.Prelude.{◌≡◌, ◌≢◌, ◌<◌, ◌≤◌, ◌+◌, ◌*◌, ◌↔◌, ℕ, Ok, None, IsTrue, IfOk, IfSome, OnSome, IsSome, length, slice_index};
ghost use Rattle.grid_types.specs.declared.refusal.Refusal.TheVariants.{ReadFault};
ghost use Rattle.grid_types.specs.declared.sizes.TheConstants.{PAGE_BYTES, MOST_ATTRIBUTES, MOST_RECORDS};
ghost use Rattle.grid_types.specs.Shapes.{file_pages};
ghost use Rattle.grid_model.specs.Lawful.{nowhere, pages_named};
ghost use Rattle.disk_trait.specs.Calls.{OnlyReads, HasCauses};
ghost use Rattle.grid_check.specs.Marks.{keys_at, MarksKeys, MarksBuckets};
ghost use Rattle.grid_check.specs.Reads.{HoldsPage, HoldsBucket, AreHeld};
ghost use Rattle.grid_check.specs.Rules.{SpellsNumber, HasBucket, JudgesBuckets};

use crate::Holding;
use crate::marks::mark_page;
use crate::numbers::is_numbered;
use bucket_page::judge;
use disk_trait::{Disk, Steps, read_page};
use grid_types::{Geometry, PAGE_BYTES, PageList, Refusal};
use std::collections::BTreeMap;
use std::sync::ledger::Ledger;

/// What is held of the bucket of that number, where the page spells one.
pub(crate) fn held_of<const K: usize>(
    page: &[u8; PAGE_BYTES],
    capacity: u16,
    number: u32,
) -> Option<Holding<K>>
    requires few { K ≤ MOST_ATTRIBUTES }
    requires lawful { capacity ≤ MOST_RECORDS }
    ensures some { IsSome result ↔ SpellsNumber K capacity page.now number }
    ensures held { IfSome result (HoldsPage capacity page.now number) }
{
    let Some(head) = judge::<K>(page, capacity) else {
        return None;
    };
    if head.number != number {
        return None;
    }
    Some(Holding {
        region: head.region,
        count: head.count,
    })
}

/// What is held of the bucket of a number, where the number's page spells it. It marks the keys of the bucket's records.
fn read_held<const K: usize, D: Disk, L: Ledger>(
    disk: &mut D,
    geometry: &Geometry,
    table: &PageList,
    number: u32,
    marks: &mut BTreeMap<[u64; K], bool>,
    steps: &mut Steps<L>,
) -> Result<Option<Holding<K>>, Refusal>
    requires size { file_pages geometry.now.shape * PAGE_BYTES ≤ D.extent disk.old }
    requires few { K ≤ MOST_ATTRIBUTES }
    requires listed { number < length table.now.items }
    requires page { slice_index table.now.items number < geometry.now.shape.pages }
    ensures judged { IsTrue (D.honest disk.old)
        → IfOk result (λ found. IsSome found ↔ HasBucket K geometry.now.shape (D.seen disk.old)
        table.now.items number) }
    ensures held { IsTrue (D.honest disk.old)
        → IfOk result (λ found. IfSome found (HoldsBucket geometry.now.shape (D.seen disk.old)
        table.now.items number)) }
    ensures marked { IsTrue (D.honest disk.old)
        → IfOk result (λ found. OnSome found (MarksKeys (keys_at K geometry.now.shape
        (D.seen disk.old) table.now.items number) marks.old marks.new)) }
    ensures same { OnlyReads D.Disk disk.old disk.new }
    ensures causes { HasCauses D.Disk (λ e. e ≡ ReadFault) disk.old disk.new result }
    ensures ticks { steps.new ≡ steps.old + 1 }
{
    let mut page = [0; PAGE_BYTES];
    let at = geometry.data_page(table.list()[number as usize]);
    read_page(disk, at as u64, &mut page, steps)?;
    let found = held_of(&page, geometry.shape.capacity, number);
    if let Some(held) = &found {
        mark_page(&page, held.count as usize, marks);
    }
    Ok(found)
}

/// The page of the first bucket number whose page spells no bucket of that number, or none. No page behind that one is read.
/// Where there is none, `holdings` has what is held of each bucket then, under its number, and the keys of all records are
/// marked, those that have a mark.
#[tactic(auto, using(crate::proofs::Marking::marks_none))]
pub fn first_bad_bucket<const K: usize, D: Disk, L: Ledger>(
    disk: &mut D,
    geometry: &Geometry,
    table: &PageList,
    holdings: &mut [Holding<K>],
    marks: &mut BTreeMap<[u64; K], bool>,
    steps: &mut Steps<L>,
) -> Result<Option<u32>, Refusal>
    requires size { file_pages geometry.now.shape * PAGE_BYTES ≤ D.extent disk.old }
    requires few { K ≤ MOST_ATTRIBUTES }
    requires count { length table.now.items ≡ geometry.now.shape.pages }
    requires pages { (n : ℕ) → n < length table.now.items
        → slice_index table.now.items n ≢ nowhere
        → slice_index table.now.items n < geometry.now.shape.pages }
    requires room { length holdings.old ≡ length table.now.items }
    ensures judged { IsTrue (D.honest disk.old)
        → IfOk result (JudgesBuckets K geometry.now.shape (D.seen disk.old) table.now.items) }
    ensures held { IsTrue (D.honest disk.old)
        → result ≡ Ok None
        → AreHeld geometry.now.shape (D.seen disk.old) table.now.items
        holdings.new (length table.now.items) }
    ensures marked { IsTrue (D.honest disk.old)
        → result ≡ Ok None
        → MarksBuckets K geometry.now.shape (D.seen disk.old) table.now.items
        marks.old marks.new }
    ensures room { length holdings.new ≡ length holdings.old }
    ensures same { OnlyReads D.Disk disk.old disk.new }
    ensures causes { HasCauses D.Disk (λ e. e ≡ ReadFault) disk.old disk.new result }
    ensures ticks { steps.new ≤ steps.old + length (pages_named table.now.items) }
{
    for number in 0..geometry.shape.pages {
        if !is_numbered(table, number) {
            continue;
        }
        match read_held(disk, geometry, table, number, marks, steps)? {
            Some(held) => holdings[number as usize] = held,
            None => return Ok(Some(geometry.data_page(table.list()[number as usize]))),
        }
    }
    Ok(None)
}
