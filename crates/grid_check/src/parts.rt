//! The directory pages of a file, judged in the order of their parts.
ghost use Rattle.std.specs.Prelude.{◌≡◌, ◌<◌, ◌≤◌, ◌+◌, ◌*◌, ◌↔◌, ℕ, Ok, None, IsTrue, IfOk, length, slice_index};
ghost use Rattle.grid_types.specs.declared.refusal.Refusal.TheVariants.{ReadFault};
ghost use Rattle.grid_types.specs.declared.sizes.TheConstants.{PAGE_BYTES};
ghost use Rattle.grid_types.specs.Pages.{page_of};
ghost use Rattle.grid_types.specs.Shapes.{file_pages, word_pages};
ghost use Rattle.grid_model.specs.Images.{entry_page};
ghost use Rattle.grid_model.specs.Lists.{product};
ghost use Rattle.disk_trait.specs.Calls.{OnlyReads, HasCauses};
ghost use Rattle.grid_check.specs.Reads.{AreNamed, TakesPart};
ghost use Rattle.grid_check.specs.Rules.{HasPart, JudgesParts};

use directory_pages::{bucket_at, is_directory_page};
use disk_trait::{Disk, Steps, read_page};
use grid_cells::Dims;
use grid_types::{Geometry, PAGE_BYTES, PageList, Refusal};
use std::sync::ledger::Ledger;

/// Takes the numbers that the cells of a part name from its page.
fn take_part(page: &[u8; PAGE_BYTES], part: u32, names: &mut [u32])
    requires some { 1000 * part < length names.old }
    requires few { length names.old ≤ 1000000 }
    ensures { TakesPart page.now part names.old names.new }
{
    let first = 1000 * part as usize;
    let count = (names.len() - first).min(1000);
    for i in 0..count {
        names[first + i] = bucket_at(page, i as u32);
    }
}

/// Whether the page of a directory part is spelled for it. It takes the numbers that the part's cells name.
fn has_part<const K: usize, D: Disk, L: Ledger>(
    disk: &mut D,
    geometry: &Geometry,
    dims: &Dims<K>,
    parts: &PageList,
    part: u32,
    names: &mut [u32],
    steps: &mut Steps<L>,
) -> Result<bool, Refusal>
    requires size { file_pages geometry.now.shape * PAGE_BYTES ≤ D.extent disk.old }
    requires some { 1000 * part < product dims.now.intervals }
    requires listed { part < length parts.now.items }
    requires page { slice_index parts.now.items part < geometry.now.shape.pages }
    requires cells { length names.old ≡ product dims.now.intervals }
    ensures judged { IsTrue (D.honest disk.old)
        → IfOk result (λ good. IsTrue good ↔ HasPart geometry.now.shape (D.seen disk.old)
        dims.now.intervals parts.now.items part) }
    ensures taken { IsTrue (D.honest disk.old)
        → IfOk result (λ good. TakesPart (entry_page geometry.now.shape (D.seen disk.old)
        parts.now.items part) part names.old names.new) }
    ensures count { length names.new ≡ length names.old }
    ensures same { OnlyReads D.Disk disk.old disk.new }
    ensures causes { HasCauses D.Disk (λ e. e ≡ ReadFault) disk.old disk.new result }
    ensures ticks { steps.new ≡ steps.old + 1 }
{
    let mut page = [0; PAGE_BYTES];
    let at = geometry.data_page(parts.list()[part as usize]);
    read_page(disk, at as u64, &mut page, steps)?;
    take_part(&page, part, names);
    let count = (dims.cells() - 1000 * part).min(1000);
    Ok(is_directory_page(&page, part, count))
}

/// The page of the first directory part that is not spelled for it, or none. No page behind that one is read. Where there is
/// none, `names` has the number that each cell names then.
pub fn first_bad_part<const K: usize, D: Disk, L: Ledger>(
    disk: &mut D,
    geometry: &Geometry,
    dims: &Dims<K>,
    parts: &PageList,
    names: &mut [u32],
    steps: &mut Steps<L>,
) -> Result<Option<u32>, Refusal>
    requires size { file_pages geometry.now.shape * PAGE_BYTES ≤ D.extent disk.old }
    requires count { length parts.now.items ≡ word_pages (product dims.now.intervals) }
    requires pages { (p : ℕ) → p < length parts.now.items
        → slice_index parts.now.items p < geometry.now.shape.pages }
    requires cells { length names.old ≡ product dims.now.intervals }
    ensures judged { IsTrue (D.honest disk.old)
        → IfOk result (JudgesParts geometry.now.shape (D.seen disk.old)
        dims.now.intervals parts.now.items) }
    ensures named { IsTrue (D.honest disk.old)
        → result ≡ Ok None
        → AreNamed geometry.now.shape (D.seen disk.old) parts.now.items
        names.new (product dims.now.intervals) }
    ensures cells { length names.new ≡ length names.old }
    ensures same { OnlyReads D.Disk disk.old disk.new }
    ensures causes { HasCauses D.Disk (λ e. e ≡ ReadFault) disk.old disk.new result }
    ensures ticks { steps.new ≤ steps.old + length parts.now.items }
{
    for part in 0..(dims.cells() + 999) / 1000 {
        if !has_part(disk, geometry, dims, parts, part, names, steps)? {
            return Ok(Some(geometry.data_page(parts.list()[part as usize])));
        }
    }
    Ok(None)
}
