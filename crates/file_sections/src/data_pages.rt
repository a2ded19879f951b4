//! Pages that are read and written, and a sync.
ghost use Rattle.std.specs.Prelude.{◌≡◌, ◌<◌, ◌≤◌, ◌+◌, ◌*◌, ℕ, List, IsTrue, OnOk, OnErr};
ghost use Rattle.grid_types.specs.declared.refusal.Refusal.TheVariants.{ReadFault};
ghost use Rattle.grid_types.specs.declared.sizes.TheConstants.{PAGE_BYTES};
ghost use Rattle.grid_types.specs.Pages.{page_of};
ghost use Rattle.grid_types.specs.Shapes.{file_pages, data_page};
ghost use Rattle.disk_trait.specs.Calls.{OnlyReads, Changes, IsSynced, HasCauses};
ghost use Rattle.disk_trait.specs.Causes.{HasCause};
ghost use Rattle.disk_trait.specs.Disk.{Agrees, Stays};
ghost use Rattle.file_images.specs.Kept.{Kept};
ghost use Rattle.file_images.specs.Meets.{Meets};
ghost use Rattle.file_images.specs.Steps.{with_page, without_page, with_settled};
ghost use Rattle.file_sections.specs.Sections.{StaysShown, IsUnkept};

use disk_trait::{Disk, DiskFailed, Steps, sync_all, write_page};
use grid_types::{Geometry, PAGE_BYTES, Refusal};
use std::sync::ledger::Ledger;

/// Reads a page. What the disk met it goes on meeting, whether the call fails or not.
pub fn read_page<D: Disk, L: Ledger>(
    disk: &mut D,
    page: u64,
    out: &mut [u8; PAGE_BYTES],
    steps: &mut Steps<L>,
) -> Result<(), Refusal>
    requires { page * PAGE_BYTES + PAGE_BYTES ≤ D.extent disk.old }
    ensures moments { (K : ℕ) (k : Kept K)
        → Meets D.Disk k disk.old
        → StaysShown D.Disk k disk.old disk.new }
    ensures kept { (K : ℕ) (k : Kept K) → Meets D.Disk k disk.old → Meets D.Disk k disk.new }
    ensures bytes { IsTrue (D.honest disk.old)
        → OnOk result (out.new ≡ page_of page (D.seen disk.old)) }
    ensures same { OnlyReads D.Disk disk.old disk.new }
    ensures causes { HasCauses D.Disk (λ e. e ≡ ReadFault) disk.old disk.new result }
    ensures ticks { steps.new ≡ steps.old + 1 }
{
    disk_trait::read_page(disk, page, out, steps)
}

/// Syncs. What the disk met it goes on meeting, whether the call fails or not; where it does not, what its data pages read
/// as they always hold.
pub fn sync<D: Disk>(disk: &mut D) -> Result<(), DiskFailed>
    ensures moments { (K : ℕ) (k : Kept K)
        → Meets D.Disk k disk.old
        → StaysShown D.Disk k disk.old disk.new }
    ensures kept { (K : ℕ) (k : Kept K) → Meets D.Disk k disk.old → Meets D.Disk k disk.new }
    ensures settled { (K : ℕ) (k : Kept K) (pages : List ℕ)
        → Meets D.Disk k disk.old
        → OnOk result (Meets D.Disk (with_settled k pages) disk.new) }
    ensures durable { OnOk result (IsSynced D.Disk disk.new) }
    ensures changes { Changes D.Disk Stays disk.old disk.new }
    ensures same { OnErr result (OnlyReads D.Disk disk.old disk.new) }
    ensures cause { HasCause (D.write_count disk.old) (D.write_count disk.new) result }
{
    sync_all(disk)
}

/// Writes a data page that always holds nothing that is known, and does not sync.
pub fn write_data_page<D: Disk>(
    disk: &mut D,
    geometry: &Geometry,
    page: u32,
    bytes: &[u8; PAGE_BYTES],
) -> Result<(), DiskFailed>
    requires inside { page < geometry.now.shape.pages }
    requires size { file_pages geometry.now.shape * PAGE_BYTES ≤ D.extent disk.old }
    ensures moments { (K : ℕ) (k : Kept K)
        → IsUnkept k geometry.now.shape page
        → Meets D.Disk k disk.old
        → StaysShown D.Disk k disk.old disk.new }
    ensures written { (K : ℕ) (k : Kept K)
        → IsUnkept k geometry.now.shape page
        → Meets D.Disk k disk.old
        → OnOk result (Meets D.Disk (with_page k page bytes.now) disk.new) }
    ensures failed { (K : ℕ) (k : Kept K)
        → IsUnkept k geometry.now.shape page
        → Meets D.Disk k disk.old
        → OnErr result (Meets D.Disk (without_page k page) disk.new) }
    ensures changes { Changes D.Disk
        (Agrees (data_page geometry.now.shape page * PAGE_BYTES) PAGE_BYTES)
        disk.old disk.new }
    ensures cause { HasCause (D.write_count disk.old) (D.write_count disk.new) result }
{
    write_page(disk, u64::from(geometry.data_page(page)), bytes)
}
