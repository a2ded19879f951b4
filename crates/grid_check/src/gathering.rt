//! The records of a file's buckets, put together into a table.
ghost use Rattle.std.specs.Prelude.{◌≡◌, ◌≢◌, ◌<◌, ◌≤◌, ◌+◌, ◌*◌, ◌↔◌, ℕ, Ok, None, IsTrue, IfOk, OnOk, length, slice_index};
ghost use Rattle.grid_types.specs.declared.sizes.TheConstants.{PAGE_BYTES, MOST_ATTRIBUTES, MOST_RECORDS};
ghost use Rattle.grid_types.specs.Shapes.{file_pages};
ghost use Rattle.grid_model.specs.Lawful.{nowhere, pages_named};
ghost use Rattle.bucket_page.specs.OnPage.{OfBucket};
ghost use Rattle.disk_trait.specs.Calls.{OnlyReads, HasCauses};
ghost use Rattle.grid_check.specs.Dumps.{put_all, PutsBucket, PutsBuckets};
ghost use Rattle.grid_check.specs.Reads.{MayRefusePages};
ghost use Rattle.grid_check.specs.Rules.{HasBucket, JudgesBuckets};

use crate::buckets::held_of;
use crate::numbers::is_numbered;
use bucket_page::record_on;
use disk_trait::{Disk, Steps, read_page};
use grid_types::{Data, Geometry, PAGE_BYTES, PageList, Record, Refusal};
use std::alloc::AllocError;
use std::collections::BTreeMap;
use std::sync::ledger::Ledger;

/// Puts the records of a page into a table. Its only error is want of memory.
fn put_page<const K: usize>(
    page: &[u8; PAGE_BYTES],
    count: usize,
    table: &mut BTreeMap<[u64; K], Data>,
) -> Result<(), AllocError>
    requires many { count ≤ MOST_RECORDS }
    requires few { K ≤ MOST_ATTRIBUTES }
    ensures { OfBucket K page.now count
        (λ b. OnOk result (table.new.entries ≡ put_all table.old.entries b.rows)) }
{
    for i in 0..count {
        let Record { key, value } = record_on::<K>(page, i);
        table.insert(key.numbers, value)?;
    }
    Ok(())
}

/// Puts the records of the bucket of a number into a table, where the number's page spells it.
fn put_bucket<const K: usize, D: Disk, L: Ledger>(
    disk: &mut D,
    geometry: &Geometry,
    pages: &PageList,
    number: u32,
    table: &mut BTreeMap<[u64; K], Data>,
    steps: &mut Steps<L>,
) -> Result<bool, Refusal>
    requires size { file_pages geometry.now.shape * PAGE_BYTES ≤ D.extent disk.old }
    requires few { K ≤ MOST_ATTRIBUTES }
    requires listed { number < length pages.now.items }
    requires page { slice_index pages.now.items number < geometry.now.shape.pages }
    ensures judged { IsTrue (D.honest disk.old)
        → IfOk result (λ good. IsTrue good ↔ HasBucket K geometry.now.shape (D.seen disk.old)
        pages.now.items number) }
    ensures put { IsTrue (D.honest disk.old)
        → IfOk result (λ good. IsTrue good → PutsBucket K geometry.now.shape (D.seen disk.old)
        pages.now.items number table.old.entries table.new.entries) }
    ensures same { OnlyReads D.Disk disk.old disk.new }
    ensures causes { HasCauses D.Disk MayRefusePages disk.old disk.new result }
    ensures ticks { steps.new ≡ steps.old + 1 }
{
    let mut page = [0; PAGE_BYTES];
    let at = geometry.data_page(pages.list()[number as usize]);
    match read_page(disk, at as u64, &mut page, steps) {
        Ok(()) => {}
        Err(_) => return Err(Refusal::ReadFault),
    }
    let Some(held) = held_of::<K>(&page, geometry.shape.capacity, number) else {
        return Ok(false);
    };
    match put_page(&page, held.count as usize, table) {
        Ok(()) => Ok(true),
        Err(AllocError) => Err(Refusal::NoMemory),
    }
}

/// The page of the first bucket number whose page spells no bucket of that number, or none. No page behind that one is read.
/// Where there is none, `table` has the records of all buckets then, put into what it had.
pub fn put_buckets<const K: usize, D: Disk, L: Ledger>(
    disk: &mut D,
    geometry: &Geometry,
    pages: &PageList,
    table: &mut BTreeMap<[u64; K], Data>,
    steps: &mut Steps<L>,
) -> Result<Option<u32>, Refusal>
    requires size { file_pages geometry.now.shape * PAGE_BYTES ≤ D.extent disk.old }
    requires few { K ≤ MOST_ATTRIBUTES }
    requires count { length pages.now.items ≡ geometry.now.shape.pages }
    requires pages { (n : ℕ) → n < length pages.now.items
        → slice_index pages.now.items n ≢ nowhere
        → slice_index pages.now.items n < geometry.now.shape.pages }
    ensures judged { IsTrue (D.honest disk.old)
        → IfOk result (JudgesBuckets K geometry.now.shape (D.seen disk.old) pages.now.items) }
    ensures put { IsTrue (D.honest disk.old)
        → result ≡ Ok None
        → PutsBuckets K geometry.now.shape (D.seen disk.old) pages.now.items
        table.old.entries table.new.entries }
    ensures same { OnlyReads D.Disk disk.old disk.new }
    ensures causes { HasCauses D.Disk MayRefusePages disk.old disk.new result }
    ensures ticks { steps.new ≤ steps.old + length (pages_named pages.now.items) }
{
    for number in 0..geometry.shape.pages {
        if !is_numbered(pages, number) {
            continue;
        }
        if !put_bucket(disk, geometry, pages, number, table, steps)? {
            return Ok(Some(geometry.data_page(pages.list()[number as usize])));
        }
    }
    Ok(None)
}
