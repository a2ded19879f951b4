//! Whether the pages of a table area say what a root's have to say.
ghost use Rattle.std.specs.Prelude.{◌≡◌, ◌<◌, ◌≤◌, ◌+◌, ◌-◌, ◌*◌, ◌/◌, ◌%◌, ℕ, List, false, length, min, slice_index, IsTrue, IfOk};
ghost use Rattle.grid_types.specs.declared.sizes.TheConstants.{NUMBERS_ON_PAGE};
ghost use Rattle.grid_types.specs.Pages.{page_of};
ghost use Rattle.grid_types.specs.Shapes.{area_pages};
ghost use Rattle.grid_model.specs.Lawful.{Area};
ghost use Rattle.root_pages.specs.Fields.{model_fields};
ghost use Rattle.grid_model.specs.Roots.{AreRootFields};
ghost use Rattle.grid_types.specs.Ranges.{own_page};
ghost use Rattle.file_roots.specs.Damage.{HasAreaUpTo};
ghost use Rattle.file_roots.specs.Gathering.{TakesPage, HasGathered, HasRoom};

use crate::gathering::{Gathered, take_boundaries, take_pages};
use crate::root::count_named;
use grid_types::{Geometry, NUMBERS_ON_PAGE, PAGE_BYTES, WORDS_ON_PAGE};
use root_pages::{RootHeader, is_list_page, is_scale_page, is_table_page};
use std::alloc::AllocError;

/// How many boundaries stand on page `i` of the table area.
fn boundaries_on(fields: &RootHeader, i: u32) -> usize
    ensures { result ≡ min NUMBERS_ON_PAGE
        (slice_index fields.now.boundaries.items (i / 2) - NUMBERS_ON_PAGE * (i % 2)) }
{
    let a = (i / 2) as usize;
    let counts = fields.boundaries.as_slice();
    if a >= counts.len() {
        return 0;
    }
    let all = counts[a] as usize;
    if i % 2 == 0 {
        return all.min(NUMBERS_ON_PAGE);
    }
    all.saturating_sub(NUMBERS_ON_PAGE).min(NUMBERS_ON_PAGE)
}

/// Takes a page of a scale, unless it does not say its half of it.
fn take_scale<const K: usize>(
    gathered: &mut Gathered<K>,
    geometry: &Geometry,
    fields: &RootHeader,
    i: u32,
    page: &[u8; PAGE_BYTES],
) -> bool
    requires root { AreRootFields geometry.now.shape (model_fields fields.now) }
    requires scale { i < 8 }
    requires room { HasRoom geometry.now.shape gathered.old }
    ensures taken { TakesPage geometry.now.shape (model_fields fields.now) i
        page.now gathered.old gathered.new result }
    ensures room { HasRoom geometry.now.shape gathered.new }
{
    let count = boundaries_on(fields, i);
    if !is_scale_page(page, fields.number, i, count) {
        return false;
    }
    let a = (i / 2) as usize;
    if a >= K {
        return true;
    }
    take_boundaries(&mut gathered.scales, a, page, count)
}

/// Takes the page of the directory's list, unless it does not say it.
fn take_list<const K: usize>(
    gathered: &mut Gathered<K>,
    geometry: &Geometry,
    fields: &RootHeader,
    i: u32,
    page: &[u8; PAGE_BYTES],
) -> Result<bool, AllocError>
    requires root { AreRootFields geometry.now.shape (model_fields fields.now) }
    requires list { i ≡ 8 }
    requires room { HasRoom geometry.now.shape gathered.old }
    ensures taken { IfOk result (TakesPage geometry.now.shape (model_fields fields.now) i
        page.now gathered.old gathered.new) }
    ensures room { HasRoom geometry.now.shape gathered.new }
{
    let count = fields.parts as usize;
    if !is_list_page(page, fields.number, i, count) {
        return Ok(false);
    }
    take_pages(&mut gathered.parts, &mut gathered.marks, page, count, false)
}

/// Takes a page of the bucket table, unless it does not say its numbers.
fn take_table<const K: usize>(
    gathered: &mut Gathered<K>,
    geometry: &Geometry,
    fields: &RootHeader,
    i: u32,
    page: &[u8; PAGE_BYTES],
) -> Result<bool, AllocError>
    requires root { AreRootFields geometry.now.shape (model_fields fields.now) }
    requires table { 9 ≤ i }
    requires inside { i < area_pages geometry.now.shape }
    requires room { HasRoom geometry.now.shape gathered.old }
    ensures taken { IfOk result (TakesPage geometry.now.shape (model_fields fields.now) i
        page.now gathered.old gathered.new) }
    ensures room { HasRoom geometry.now.shape gathered.new }
{
    let rest = geometry.shape.pages as usize - WORDS_ON_PAGE * (i as usize - 9);
    let count = rest.min(WORDS_ON_PAGE);
    if !is_table_page(page, fields.number, i, count) {
        return Ok(false);
    }
    take_pages(&mut gathered.table, &mut gathered.marks, page, count, true)
}

/// Takes the entries of a page of the table area, whatever kind of page it is.
fn take_entries<const K: usize>(
    gathered: &mut Gathered<K>,
    geometry: &Geometry,
    fields: &RootHeader,
    i: u32,
    page: &[u8; PAGE_BYTES],
) -> Result<bool, AllocError>
    requires root { AreRootFields geometry.now.shape (model_fields fields.now) }
    requires inside { i < area_pages geometry.now.shape }
    requires room { HasRoom geometry.now.shape gathered.old }
    ensures taken { IfOk result (TakesPage geometry.now.shape (model_fields fields.now) i
        page.now gathered.old gathered.new) }
    ensures room { HasRoom geometry.now.shape gathered.new }
{
    if i < 8 {
        return Ok(take_scale(gathered, geometry, fields, i, page));
    }
    if i == 8 {
        return take_list(gathered, geometry, fields, i, page);
    }
    take_table(gathered, geometry, fields, i, page)
}

/// Takes a page of the table area, unless it is not spelled for the root. With the last page the buckets are counted.
pub fn take_area_page<const K: usize>(
    gathered: &mut Gathered<K>,
    geometry: &Geometry,
    fields: &RootHeader,
    i: u32,
    page: &[u8; PAGE_BYTES],
) -> Result<bool, AllocError>
    requires root { AreRootFields geometry.now.shape (model_fields fields.now) }
    requires inside { i < area_pages geometry.now.shape }
    requires room { HasRoom geometry.now.shape gathered.old }
    ensures gathered { (image : List ℕ)
        → page_of (own_page geometry.now.shape fields.now.number i) image ≡ page.now
        → HasGathered geometry.now.shape image (model_fields fields.now) i gathered.old
        → IfOk result (λ t. IsTrue t
        → HasGathered geometry.now.shape image (model_fields fields.now) (i + 1) gathered.new) }
    ensures refused { (image : List ℕ)
        → page_of (own_page geometry.now.shape fields.now.number i) image ≡ page.now
        → HasGathered geometry.now.shape image (model_fields fields.now) i gathered.old
        → IfOk result (λ t. t ≡ false
        → (a : Area)
        → HasAreaUpTo geometry.now.shape image (model_fields fields.now) (i + 1) a
        → ⊥) }
    ensures room { HasRoom geometry.now.shape gathered.new }
{
    if !take_entries(gathered, geometry, fields, i, page)? {
        return Ok(false);
    }
    if i + 1 < geometry.area_pages() {
        return Ok(true);
    }
    Ok(count_named(gathered.table.list()) == fields.buckets as usize)
}
