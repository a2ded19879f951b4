//! A file is made.
ghost use Rattle.std.specs.Prelude.{◌≡◌, ◌⊎◌, ◌↔◌, ◌≤◌, ◌*◌, IsTrue, IsErrOf, OnOk};
ghost use Rattle.grid_types.specs.declared.refusal.Refusal.TheVariants.{BadShape, WriteFault};
ghost use Rattle.grid_types.specs.declared.sizes.TheConstants.{PAGE_BYTES};
ghost use Rattle.grid_types.specs.Shapes.{file_pages};
ghost use Rattle.disk_trait.specs.Causes.{HasCause};
ghost use Rattle.disk_trait.specs.Calls.{Changes, IsSynced, HasCauses};
ghost use Rattle.disk_trait.specs.Moments.{Always};
ghost use Rattle.file_images.specs.Leads.{HasStanding};
ghost use Rattle.file_images.specs.NewFiles.{IsNewFile, new_standing};
ghost use Rattle.file_making.specs.NewPages.{HasNewPages};
ghost use Rattle.file_making.specs.Making.{CanNotBeMade, FileAlone};

use crate::pages::encode_page;
use disk_trait::{Disk, DiskFailed, sync_all, write_page};
use grid_types::{Geometry, PAGE_BYTES, Refusal, Shape};

/// Whether a disk of so many bytes has the pages of a file.
pub(crate) fn fits(geometry: &Geometry, size: u64) -> bool
    ensures { IsTrue result ↔ (file_pages geometry.now.shape * PAGE_BYTES ≤ size) }
{
    geometry.shape.file_pages() <= size / PAGE_BYTES as u64
}

/// Writes each page of a new file once, in their order, also those of zeros, and does not sync.
fn write_pages<D: Disk>(disk: &mut D, geometry: &Geometry) -> Result<(), DiskFailed>
    requires size { file_pages geometry.now.shape * PAGE_BYTES ≤ D.extent disk.old }
    ensures pages { IsTrue (D.honest disk.old)
        → OnOk result (HasNewPages geometry.now.shape.k geometry.now.shape (D.seen disk.new)) }
    ensures changes { Changes D.Disk (FileAlone geometry.now.shape) disk.old disk.new }
    ensures cause { HasCause (D.write_count disk.old) (D.write_count disk.new) result }
{
    let mut page = [0; PAGE_BYTES];
    for number in 0..geometry.shape.file_pages() as u32 {
        encode_page(geometry, number, &mut page);
        write_page(disk, number.into(), &page)?;
    }
    Ok(())
}

/// Writes each page of a new file, and then puts all on the disk.
fn write_file<D: Disk>(disk: &mut D, geometry: &Geometry) -> Result<(), DiskFailed>
    requires size { file_pages geometry.now.shape * PAGE_BYTES ≤ D.extent disk.old }
    ensures pages { IsTrue (D.honest disk.old)
        → OnOk result (HasNewPages geometry.now.shape.k geometry.now.shape (D.seen disk.new)) }
    ensures durable { OnOk result (IsSynced D.Disk disk.new) }
    ensures changes { Changes D.Disk (FileAlone geometry.now.shape) disk.old disk.new }
    ensures cause { HasCause (D.write_count disk.old) (D.write_count disk.new) result }
{
    write_pages(disk, geometry)?;
    sync_all(disk)
}

/// Makes a new file of this shape on the disk: each of its pages is written once, in their order, also those of zeros, and
/// then all is put on the disk. It takes no memory, and touches nothing behind the file's pages.
pub fn make<D: Disk>(disk: &mut D, shape: &Shape) -> Result<(), Refusal>
    ensures refused { IsErrOf result BadShape ↔ CanNotBeMade shape.now (D.extent disk.old) }
    ensures same { IsErrOf result BadShape → disk.new ≡ disk.old }
    ensures pages { IsTrue (D.honest disk.old)
        → OnOk result (HasNewPages shape.now.k shape.now (D.seen disk.new)) }
    ensures made { IsTrue (D.honest disk.old)
        → OnOk result (IsNewFile shape.now.k shape.now (D.seen disk.new)) }
    ensures stands { IsTrue (D.honest disk.old)
        → OnOk result (HasStanding (D.seen disk.new) (new_standing shape.now.k)) }
    ensures crash { IsTrue (D.honest disk.old)
        → OnOk result (Always (D.may_leave disk.new) (IsNewFile shape.now.k shape.now)) }
    ensures durable { OnOk result (IsSynced D.Disk disk.new) }
    ensures changes { Changes D.Disk (FileAlone shape.now) disk.old disk.new }
    ensures causes { HasCauses D.Disk (λ e. (e ≡ BadShape) ⊎ (e ≡ WriteFault))
        disk.old disk.new result }
{
    let Some(geometry) = Geometry::new(*shape) else {
        return Err(Refusal::BadShape);
    };
    if !fits(&geometry, disk.size()) {
        return Err(Refusal::BadShape);
    }
    write_file(disk, &geometry).map_err(|_| Refusal::WriteFault)
}
