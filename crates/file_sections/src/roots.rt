//! A root step: the other header page is closed, the next root's table area is written, and its header page.
ghost use Rattle.std.specs.Prelude.{◌≡◌, ◌<◌, ◌≤◌, ◌+◌, ◌*◌, ℕ, Some, IsTrue, OnOk, OnErr};
ghost use Rattle.grid_types.specs.declared.sizes.TheConstants.{PAGE_BYTES};
ghost use Rattle.grid_types.specs.Pages.{page_of};
ghost use Rattle.grid_types.specs.Ranges.{own_page};
ghost use Rattle.grid_types.specs.Shapes.{area_pages, file_pages};
ghost use Rattle.disk_trait.specs.Calls.{Changes, IsSynced, HasCauses};
ghost use Rattle.disk_trait.specs.Causes.{HasCause};
ghost use Rattle.grid_model.specs.Images.{area_spelling};
ghost use Rattle.grid_model.specs.Roots.{WholeRoot};
ghost use Rattle.linear_scales.specs.Roots.{area_of, IsRoot};
ghost use Rattle.root_pages.specs.Fields.{model_fields};
ghost use Rattle.file_roots.specs.Places.{GateAlone, AreaPageAlone};
ghost use Rattle.file_roots.specs.Refusals.{MayRefuseClosing};
ghost use Rattle.file_roots.specs.Writing.{HeaderStep};
ghost use Rattle.file_images.specs.Kept.{Kept};
ghost use Rattle.file_images.specs.Meets.{Meets};
ghost use Rattle.file_images.specs.Steps.{with_closed, with_tried, with_root};
ghost use Rattle.file_sections.specs.Sections.{StaysShown, IsNextNumber, AwaitsNumber, AwaitsRoot, AreaReads};

use disk_trait::{Disk, DiskFailed, Steps};
use file_roots::{write_area_page, write_header};
use grid_types::{Geometry, Refusal};
use linear_scales::Root;
use root_pages::RootHeader;
use std::sync::ledger::Ledger;

/// Closes the header page of the root behind the kept one, or finds it closed: at each moment all stays shown; then it is
/// closed, or after a failure it may be closed again.
pub fn close_root<D: Disk, L: Ledger>(
    disk: &mut D,
    geometry: &Geometry,
    number: u64,
    steps: &mut Steps<L>,
) -> Result<(), Refusal>
    requires { file_pages geometry.now.shape * PAGE_BYTES ≤ D.extent disk.old }
    ensures moments { (K : ℕ) (k : Kept K)
        → IsNextNumber k geometry.now.shape number
        → Meets D.Disk k disk.old
        → StaysShown D.Disk k disk.old disk.new }
    ensures closed { (K : ℕ) (k : Kept K)
        → IsNextNumber k geometry.now.shape number
        → Meets D.Disk k disk.old
        → OnOk result (Meets D.Disk (with_closed k) disk.new) }
    ensures again { (K : ℕ) (k : Kept K)
        → IsNextNumber k geometry.now.shape number
        → Meets D.Disk k disk.old
        → OnErr result (Meets D.Disk k disk.new) }
    ensures durable { OnOk result (IsSynced D.Disk disk.new) }
    ensures changes { Changes D.Disk (GateAlone number) disk.old disk.new }
    ensures causes { HasCauses D.Disk MayRefuseClosing disk.old disk.new result }
    ensures ticks { steps.new ≡ steps.old + 1 }
{
    file_roots::close_root(disk, geometry, number, steps)
}

/// Writes page `i` of the table area of the root behind the kept one, whose header page is closed, and does not sync: all
/// stays shown, whether the call fails or not.
pub fn write_part<const K: usize, D: Disk>(
    disk: &mut D,
    geometry: &Geometry,
    root: &Root<K>,
    i: u32,
) -> Result<(), DiskFailed>
    requires attributes { geometry.now.shape.k ≡ K }
    requires root { IsRoot geometry.now.shape root.now }
    requires inside { i < area_pages geometry.now.shape }
    requires size { file_pages geometry.now.shape * PAGE_BYTES ≤ D.extent disk.old }
    ensures moments { (k : Kept K)
        → AwaitsNumber k geometry.now.shape root.now.number
        → Meets D.Disk k disk.old
        → StaysShown D.Disk k disk.old disk.new }
    ensures kept { (k : Kept K)
        → AwaitsNumber k geometry.now.shape root.now.number
        → Meets D.Disk k disk.old
        → Meets D.Disk k disk.new }
    ensures written { IsTrue (D.honest disk.old)
        → OnOk result (page_of (own_page geometry.now.shape root.now.number i) (D.seen disk.new)
        ≡ area_spelling root.now.number (area_of root.now) i) }
    ensures changes { Changes D.Disk
        (AreaPageAlone geometry.now.shape root.now.number i) disk.old disk.new }
    ensures cause { HasCause (D.write_count disk.old) (D.write_count disk.new) result }
{
    write_area_page(disk, geometry, root, i)
}

/// Writes the header page of the root behind the kept one, whose table area stands there: at each moment the kept root or
/// this one is the newest; then this one is the root, or after a failure it is the one that was tried.
pub fn finish_root<D: Disk>(
    disk: &mut D,
    geometry: &Geometry,
    fields: &RootHeader,
) -> Result<(), DiskFailed>
    requires size { file_pages geometry.now.shape * PAGE_BYTES ≤ D.extent disk.old }
    ensures moments { (K : ℕ) (k : Kept K) (new : WholeRoot)
        → AwaitsRoot k geometry.now.shape (model_fields fields.now) new
        → AreaReads D.Disk geometry.now.shape new disk.old
        → Meets D.Disk k disk.old
        → StaysShown D.Disk (with_tried k (Some new)) disk.old disk.new }
    ensures rooted { (K : ℕ) (k : Kept K) (new : WholeRoot)
        → AwaitsRoot k geometry.now.shape (model_fields fields.now) new
        → AreaReads D.Disk geometry.now.shape new disk.old
        → Meets D.Disk k disk.old
        → OnOk result (Meets D.Disk (with_root k new) disk.new) }
    ensures again { (K : ℕ) (k : Kept K) (new : WholeRoot)
        → AwaitsRoot k geometry.now.shape (model_fields fields.now) new
        → AreaReads D.Disk geometry.now.shape new disk.old
        → Meets D.Disk k disk.old
        → OnErr result (Meets D.Disk (with_tried k (Some new)) disk.new) }
    ensures durable { OnOk result (IsSynced D.Disk disk.new) }
    ensures changes { Changes D.Disk
        (HeaderStep (model_fields fields.now) (D.seen disk.old)) disk.old disk.new }
    ensures cause { HasCause (D.write_count disk.old) (D.write_count disk.new) result }
{
    write_header(disk, geometry, fields)
}
