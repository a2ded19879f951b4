//! The shape of a file, from its header pages.
ghost use Rattle.std.specs.Prelude.{◌≡◌, ◌⊎◌, ◌↔◌, ◌≤◌, ◌+◌, ◌*◌, ℕ, List, IsTrue, IfOk, OnOk, IfErr, OnErr, length, take};
ghost use Rattle.grid_types.specs.declared.sizes.TheConstants.{PAGE_BYTES};
ghost use Rattle.grid_types.specs.declared.refusal.Refusal.TheVariants.{ReadFault};
ghost use Rattle.grid_types.specs.Pages.{page_of};
ghost use Rattle.grid_types.specs.Shapes.{file_pages};
ghost use Rattle.grid_model.specs.Images.{HasShape};
ghost use Rattle.root_pages.specs.Headers.{SpellsShape};
ghost use Rattle.disk_trait.specs.Calls.{OnlyReads, HasCauses};
ghost use Rattle.file_roots.specs.Headers.{AreHeaderPages};
ghost use Rattle.file_roots.specs.Reading.{TakesSteps};
ghost use Rattle.recovery.specs.Beginnings.{BeginsAsGrid, IsShapeFault, BeginsWithShape};
ghost use Rattle.recovery.specs.Refusals.{TellsShape, MayRefuseShape};

use disk_trait::{Disk, Steps, read_page};
use grid_types::{Geometry, PAGE_BYTES, Refusal};
use page_fields::get_u16;
use root_pages::decode_shape;
use std::sync::ledger::Ledger;

/// The version of the format that is known.
const VERSION: u16 = 1;

/// Whether a header page begins with the kind of a grid file.
fn begins_as_grid(page: &[u8; PAGE_BYTES]) -> bool
    ensures { IsTrue result ↔ BeginsAsGrid page.now }
{
    page.starts_with(b"GRIDFILE")
}

/// Whether two header pages begin with the same shape.
fn begin_alike(zeroth: &[u8; PAGE_BYTES], first: &[u8; PAGE_BYTES]) -> bool
    ensures { IsTrue result ↔ (take 64 first.now ≡ take 64 zeroth.now) }
{
    first[..64] == zeroth[..64]
}

/// The geometry of a file of so many bytes, two pages at least, that begins with this page.
fn judge_first_page(page: &[u8; PAGE_BYTES], size: u64) -> Result<Geometry, Refusal>
    requires two { 2 * PAGE_BYTES ≤ size }
    ensures spelled { IfOk result (λ g. SpellsShape page.now g.shape) }
    ensures long { IfOk result (λ g. file_pages g.shape * PAGE_BYTES ≤ size) }
    ensures first { (image : List ℕ)
        → page_of 0 image ≡ page.now
        → length image ≡ size
        → IfErr result (IsShapeFault image) }
    ensures told { IfErr result TellsShape }
{
    if !begins_as_grid(page) {
        return Err(Refusal::Foreign);
    }
    let found = get_u16(page, 8);
    if found != VERSION {
        return Err(Refusal::Version { found });
    }
    let Some(geometry) = decode_shape(page) else {
        return Err(Refusal::Damaged { page: 0 });
    };
    let whole = size / PAGE_BYTES as u64;
    if whole < geometry.shape.file_pages() {
        return Err(Refusal::Damaged { page: whole as u32 });
    }
    Ok(geometry)
}

/// The geometry of a file, from its header pages: page 0 is read and judged, and then page 1. They stand in `zeroth` and in
/// `first` then, for a caller who reads more on them. It takes no memory.
pub(crate) fn read_headers<D: Disk, L: Ledger>(
    disk: &mut D,
    zeroth: &mut [u8; PAGE_BYTES],
    first: &mut [u8; PAGE_BYTES],
    steps: &mut Steps<L>,
) -> Result<Geometry, Refusal>
    ensures pages { IsTrue (D.honest disk.old)
        → OnOk result (AreHeaderPages (D.seen disk.old) zeroth.new first.new) }
    ensures found { IsTrue (D.honest disk.old)
        → IfOk result (λ g. HasShape g.shape.k (D.seen disk.old) g.shape) }
    ensures long { IfOk result (λ g. file_pages g.shape * PAGE_BYTES ≤ D.extent disk.old) }
    ensures first { IsTrue (D.honest disk.old)
        → IfErr result (λ e. (e ≡ ReadFault) ⊎ IsShapeFault (D.seen disk.old) e) }
    ensures before { IsTrue (D.honest disk.old)
        → steps.new ≡ steps.old + 2
        → OnErr result (BeginsWithShape (D.seen disk.old)) }
    ensures same { OnlyReads D.Disk disk.old disk.new }
    ensures causes { HasCauses D.Disk MayRefuseShape disk.old disk.new result }
    ensures ticks { TakesSteps 2 steps.old steps.new result }
{
    let size = disk.size();
    if size < 2 * PAGE_BYTES as u64 {
        return Err(Refusal::Foreign);
    }
    read_page(disk, 0, zeroth, steps)?;
    let geometry = judge_first_page(zeroth, size)?;
    read_page(disk, 1, first, steps)?;
    if !begin_alike(zeroth, first) {
        return Err(Refusal::Damaged { page: 1 });
    }
    Ok(geometry)
}

/// The geometry of a file, from its header pages: page 0 is read and judged, and then page 1. It takes no memory.
pub fn read_shape<D: Disk, L: Ledger>(
    disk: &mut D,
    steps: &mut Steps<L>,
) -> Result<Geometry, Refusal>
    ensures found { IsTrue (D.honest disk.old)
        → IfOk result (λ g. HasShape g.shape.k (D.seen disk.old) g.shape) }
    ensures long { IfOk result (λ g. file_pages g.shape * PAGE_BYTES ≤ D.extent disk.old) }
    ensures first { IsTrue (D.honest disk.old)
        → IfErr result (λ e. (e ≡ ReadFault) ⊎ IsShapeFault (D.seen disk.old) e) }
    ensures before { IsTrue (D.honest disk.old)
        → steps.new ≡ steps.old + 2
        → OnErr result (BeginsWithShape (D.seen disk.old)) }
    ensures same { OnlyReads D.Disk disk.old disk.new }
    ensures causes { HasCauses D.Disk MayRefuseShape disk.old disk.new result }
    ensures ticks { TakesSteps 2 steps.old steps.new result }
{
    let mut zeroth = [0; PAGE_BYTES];
    let mut first = [0; PAGE_BYTES];
    read_headers(disk, &mut zeroth, &mut first, steps)
}
