//! A root is written behind its closed header page.
ghost use Rattle.std.specs.Prelude.{◌≡◌, ◌≤◌, ◌*◌, Option, Some, IsTrue, OnOk, OnErr};
ghost use Rattle.grid_types.specs.declared.sizes.TheConstants.{PAGE_BYTES};
ghost use Rattle.grid_types.specs.Shapes.{file_pages};
ghost use Rattle.grid_model.specs.Images.{IsOtherOlder};
ghost use Rattle.grid_model.specs.Roots.{WholeRoot, IsNewestWhole};
ghost use Rattle.linear_scales.specs.Roots.{whole_of, IsRoot};
ghost use Rattle.disk_trait.specs.Calls.{Changes, IsSynced};
ghost use Rattle.disk_trait.specs.Causes.{HasCause};
ghost use Rattle.file_roots.specs.Places.{RootAlone};
ghost use Rattle.file_roots.specs.Writing.{MayBeWritten, Awaits, StaysReplaceable};

use crate::area_pages::write_area;
use crate::header::write_header;
use crate::root::header_of;
use disk_trait::{Disk, DiskFailed};
use grid_types::Geometry;
use linear_scales::Root;

/// Writes a root whose header page is closed: its table area, its fields, and its gate. After a failure its header page is
/// closed again before another attempt, which may write the same root or another one.
pub fn write_root<const K: usize, D: Disk>(
    disk: &mut D,
    geometry: &Geometry,
    root: &Root<K>,
) -> Result<(), DiskFailed>
    requires attributes { geometry.now.shape.k ≡ K }
    requires root { IsRoot geometry.now.shape root.now }
    requires size { file_pages geometry.now.shape * PAGE_BYTES ≤ D.extent disk.old }
    ensures replaceable { (old : Option WholeRoot)
        → Awaits D.Disk geometry.now.shape root.now.number old disk.old
        → StaysReplaceable D.Disk geometry.now.shape
        root.now.number old (Some (whole_of root.now)) disk.old disk.new }
    ensures again { (old : Option WholeRoot)
        → Awaits D.Disk geometry.now.shape root.now.number old disk.old
        → OnErr result (MayBeWritten D.Disk geometry.now.shape
        root.now.number old (Some (whole_of root.now)) disk.new) }
    ensures newest { IsTrue (D.honest disk.old)
        → IsOtherOlder geometry.now.shape root.now.number (D.seen disk.old)
        → OnOk result (IsNewestWhole geometry.now.shape (whole_of root.now) (D.seen disk.new)) }
    ensures durable { OnOk result (IsSynced D.Disk disk.new) }
    ensures changes { Changes D.Disk
        (RootAlone geometry.now.shape root.now.number) disk.old disk.new }
    ensures cause { HasCause (D.write_count disk.old) (D.write_count disk.new) result }
{
    write_area(disk, geometry, root)?;
    write_header(disk, geometry, &header_of(geometry, root))
}
