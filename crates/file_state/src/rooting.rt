//! The next root, made in memory.
ghost use Rattle.std.specs.Prelude.{◌≡◌, ◌<◌, ◌≤◌, ◌^◌, ◌++◌, ℕ, length, replicate, IfOk};
ghost use Rattle.grid_types.specs.declared.sizes.TheConstants.{MOST_PAGES, MOST_CELLS};
ghost use Rattle.grid_types.specs.declared.owner.Owner.TheVariants.{Bucket, Part};
ghost use Rattle.grid_model.specs.Lawful.{nowhere};
ghost use Rattle.linear_scales.specs.Roots.{IsRoot, root_fields_of};
ghost use Rattle.page_states.specs.Current.{TellsPages};
ghost use Rattle.file_state.specs.Memories.{books_of, IsMemory};
ghost use Rattle.file_state.specs.Roots.{HasRoom, TellsBooks, next_fields};

use crate::memory::Memory;
use crate::reading::cells;
use grid_types::{Geometry, MOST_PAGES, PageList};
use linear_scales::{NOWHERE, Root, Scales};
use page_states::PageStates;
use std::alloc::{AllocError, Global};

/// A list of so many numbers, each `NOWHERE`.
fn no_pages(alloc: Global, count: usize) -> Result<PageList, AllocError>
    ensures { IfOk result (λ p. p.items ≡ replicate count nowhere) }
{
    Ok(PageList::of(vec![in alloc; NOWHERE; count]?))
}

/// A root with room for each that a file of this geometry can have.
pub fn room_for_root<const K: usize>(
    alloc: Global,
    geometry: &Geometry,
) -> Result<Root<K>, AllocError>
    ensures { IfOk result (λ r. HasRoom geometry.now.shape r) }
{
    let shape = geometry.shape;
    Ok(Root {
        number: 0,
        session: 0,
        front: 0,
        records: 0,
        scales: Scales::new(alloc, shape.boundaries as u16)?,
        parts: PageList::with_room(alloc, 1000)?,
        table: no_pages(alloc, shape.pages as usize)?,
    })
}

/// Makes a list these numbers.
fn fill(list: &mut PageList, numbers: &[u32])
    requires { length numbers.now ≡ length list.old.items }
    ensures items { list.new.items ≡ numbers.now }
    ensures count { length list.new.items ≡ length list.old.items }
    ensures room { list.new.room ≡ list.old.room }
{
    for i in 0..numbers.len() {
        list.set(i, numbers[i]);
    }
}

/// Makes a list the current page of each bucket number.
fn tell_buckets(states: &PageStates, pages: u32, table: &mut PageList)
    requires few { pages ≤ MOST_PAGES }
    requires pages { pages ≡ length states.now }
    requires numbers { length table.old.items ≡ pages }
    ensures told { TellsPages Bucket nowhere states.now table.new.items (length table.new.items) }
    ensures numbers { length table.new.items ≡ pages }
{
    let mut numbers = [NOWHERE; MOST_PAGES];
    let numbers = &mut numbers[..pages as usize];
    states.bucket_pages(NOWHERE, numbers);
    fill(table, numbers);
}

/// Makes a list the current page of each directory part.
fn tell_parts(states: &PageStates, count: u32, parts: &mut PageList)
    requires few { count ≤ 1000 }
    requires known { count ≤ length states.now }
    requires room { count ≤ parts.old.room }
    ensures told { TellsPages Part nowhere states.now parts.new.items (length parts.new.items) }
    ensures numbers { length parts.new.items ≡ count }
    ensures room { parts.old.room ≤ parts.new.room }
{
    let mut numbers = [NOWHERE; 1000];
    let numbers = &mut numbers[..count as usize];
    states.part_pages(NOWHERE, numbers);
    parts.clear();
    for i in 0..numbers.len() {
        match parts.push(numbers[i]) {
            Ok(()) => {}
            Err(AllocError) => unreachable!(),
        }
    }
}

/// Makes a root the next one.
pub(crate) fn copy_root<const K: usize>(memory: &Memory<K>, root: &mut Root<K>)
    requires memory { IsMemory memory.now }
    requires room { HasRoom memory.now.geometry.shape root.old }
    requires number { memory.now.roots.number < 2 ^ 63 }
    ensures room { HasRoom memory.now.geometry.shape root.new }
    ensures root { IsRoot memory.now.geometry.shape root.new }
    ensures fields { root_fields_of root.new ≡ next_fields (books_of memory.now) }
    ensures told { TellsBooks (books_of memory.now) root.new }
{
    root.number = memory.roots.number + 1;
    root.session = memory.counts.session;
    root.front = memory.counts.front;
    root.records = memory.counts.records;
    root.scales.copy_from(&memory.scales);
    let parts = cells(memory).div_ceil(1000);
    tell_parts(&memory.pages, parts, &mut root.parts);
    tell_buckets(&memory.pages, memory.geometry.shape.pages, &mut root.table);
}
