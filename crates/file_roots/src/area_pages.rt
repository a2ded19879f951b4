//! The pages of a root's table area.
ghost use Rattle.std.specs.Prelude.{◌≡◌, ◌<◌, ◌≤◌, ◌+◌, ◌*◌, ◌-◌, [], ℕ, Option, IsTrue, OnOk, length, take, drop};
ghost use Rattle.grid_types.specs.declared.sizes.TheConstants.{PAGE_BYTES, WORDS_ON_PAGE, MOST_BOUNDARIES};
ghost use Rattle.grid_types.specs.Pages.{page_of};
ghost use Rattle.grid_types.specs.Shapes.{area_pages, file_pages};
ghost use Rattle.grid_model.specs.Scales.{scale_of};
ghost use Rattle.grid_model.specs.Images.{area_spelling, half_of_scale};
ghost use Rattle.linear_scales.specs.Limited.{scales_of};
ghost use Rattle.disk_trait.specs.Calls.{Changes};
ghost use Rattle.disk_trait.specs.Causes.{HasCause};
ghost use Rattle.grid_model.specs.Roots.{WholeRoot, HasAreaOf};
ghost use Rattle.linear_scales.specs.Roots.{area_of, whole_of, IsRoot};
ghost use Rattle.grid_types.specs.Ranges.{own_page};
ghost use Rattle.file_roots.specs.Places.{AreaPageAlone, AreaAlone};
ghost use Rattle.file_roots.specs.Writing.{Awaits, StaysReady};

use disk_trait::{Disk, DiskFailed};
use grid_types::{Geometry, NUMBERS_ON_PAGE, PAGE_BYTES, WORDS_ON_PAGE};
use linear_scales::Root;
use root_pages::{encode_list, encode_scale, encode_table};

/// The boundaries of an attribute, none for one that the root does not have.
fn boundaries_of<const K: usize>(root: &Root<K>, a: usize) -> &[u64]
    requires { length root.now.scales ≡ K }
    ensures { result.now ≡ scale_of (scales_of root.now.scales) a }
{
    if a < K {
        root.scales.scale(a).boundaries()
    } else {
        &[]
    }
}

/// The first 500 boundaries for half 0, and the others for half 1.
fn half_of(boundaries: &[u64], half: u32) -> &[u64]
    ensures { result.now ≡ half_of_scale half boundaries.now }
{
    let middle = boundaries.len().min(NUMBERS_ON_PAGE);
    if half == 0 {
        &boundaries[..middle]
    } else {
        &boundaries[middle..]
    }
}

/// The entries of a table that stand on its page of this index.
fn entries_on(table: &[u32], index: u32) -> &[u32]
    ensures { result.now ≡ take WORDS_ON_PAGE (drop (WORDS_ON_PAGE * index) table.now) }
{
    let from = (WORDS_ON_PAGE * index as usize).min(table.len());
    let to = (from + WORDS_ON_PAGE).min(table.len());
    &table[from..to]
}

/// Makes `page` the page of that index in the table area of the root.
fn encode_area_page<const K: usize>(root: &Root<K>, i: u32, page: &mut [u8; PAGE_BYTES])
    requires scales { length root.now.scales ≡ K }
    requires boundaries { (a : ℕ)
        → length (scale_of (scales_of root.now.scales) a) ≤ MOST_BOUNDARIES }
    requires parts { length root.now.parts.items ≤ WORDS_ON_PAGE }
    ensures { page.new ≡ area_spelling root.now.number (area_of root.now) i }
{
    if i < 8 {
        let boundaries = boundaries_of(root, (i / 2) as usize);
        encode_scale(root.number, i, half_of(boundaries, i % 2), page);
    } else if i == 8 {
        encode_list(root.number, i, root.parts.list(), page);
    } else {
        encode_table(root.number, i, entries_on(root.table.list(), i - 9), page);
    }
}

/// Writes page `i` of the table area of the root. It is on the disk after the next sync.
pub fn write_area_page<const K: usize, D: Disk>(
    disk: &mut D,
    geometry: &Geometry,
    root: &Root<K>,
    i: u32,
) -> Result<(), DiskFailed>
    requires attributes { geometry.now.shape.k ≡ K }
    requires root { IsRoot geometry.now.shape root.now }
    requires inside { i < area_pages geometry.now.shape }
    requires size { file_pages geometry.now.shape * PAGE_BYTES ≤ D.extent disk.old }
    ensures written { IsTrue (D.honest disk.old)
        → OnOk result (page_of (own_page geometry.now.shape root.now.number i) (D.seen disk.new)
        ≡ area_spelling root.now.number (area_of root.now) i) }
    ensures changes { Changes D.Disk
        (AreaPageAlone geometry.now.shape root.now.number i) disk.old disk.new }
    ensures awaits { (old : Option WholeRoot)
        → Awaits D.Disk geometry.now.shape root.now.number old disk.old
        → Awaits D.Disk geometry.now.shape root.now.number old disk.new }
    ensures ready { (old : Option WholeRoot)
        → Awaits D.Disk geometry.now.shape root.now.number old disk.old
        → StaysReady D.Disk geometry.now.shape root.now.number old disk.old disk.new }
    ensures cause { HasCause (D.write_count disk.old) (D.write_count disk.new) result }
{
    let mut page = [0; PAGE_BYTES];
    encode_area_page(root, i, &mut page);
    let at = u64::from(geometry.table_page((root.number % 2) as u8, i)) * PAGE_BYTES as u64;
    disk.write(at, &page)
}

/// Writes the whole table area of the root. It is on the disk after the next sync, as that of its header page's fields.
pub fn write_area<const K: usize, D: Disk>(
    disk: &mut D,
    geometry: &Geometry,
    root: &Root<K>,
) -> Result<(), DiskFailed>
    requires attributes { geometry.now.shape.k ≡ K }
    requires root { IsRoot geometry.now.shape root.now }
    requires size { file_pages geometry.now.shape * PAGE_BYTES ≤ D.extent disk.old }
    ensures written { IsTrue (D.honest disk.old)
        → OnOk result (HasAreaOf geometry.now.shape (whole_of root.now) (D.seen disk.new)) }
    ensures changes { Changes D.Disk
        (AreaAlone geometry.now.shape root.now.number) disk.old disk.new }
    ensures awaits { (old : Option WholeRoot)
        → Awaits D.Disk geometry.now.shape root.now.number old disk.old
        → Awaits D.Disk geometry.now.shape root.now.number old disk.new }
    ensures ready { (old : Option WholeRoot)
        → Awaits D.Disk geometry.now.shape root.now.number old disk.old
        → StaysReady D.Disk geometry.now.shape root.now.number old disk.old disk.new }
    ensures cause { HasCause (D.write_count disk.old) (D.write_count disk.new) result }
{
    for i in 0..geometry.area_pages() {
        write_area_page(disk, geometry, root, i)?;
    }
    Ok(())
}
