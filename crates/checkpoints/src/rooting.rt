//! The next root is written behind its closed header page.
ghost use Rattle.std.specs.Prelude.{◌≡◌, ◌<◌, ◌≤◌, ◌+◌, ◌*◌, ◌^◌, ℕ, Option, Some, IsTrue, OnOk, OnErr};
ghost use Rattle.grid_types.specs.declared.sizes.TheConstants.{PAGE_BYTES};
ghost use Rattle.grid_types.specs.Shapes.{file_pages};
ghost use Rattle.disk_trait.specs.Calls.{Changes, IsSynced};
ghost use Rattle.disk_trait.specs.Causes.{HasCause};
ghost use Rattle.grid_model.specs.Roots.{WholeRoot, HasAreaOf};
ghost use Rattle.linear_scales.specs.Roots.{whole_of, IsRoot};
ghost use Rattle.file_images.specs.Kept.{Kept};
ghost use Rattle.file_images.specs.Meets.{Meets};
ghost use Rattle.file_images.specs.Steps.{with_tried, with_root};
ghost use Rattle.file_sections.specs.Sections.{StaysShown, AwaitsNumber};
ghost use Rattle.file_books.specs.Effects.{turned_books, rooted_books, swept_books};
ghost use Rattle.file_state.specs.Roots.{HasRoom};
ghost use Rattle.file_standing.specs.Steps.{IsNextRoot};
ghost use Rattle.checkpoints.specs.Disks.{KeepsLength};

use disk_trait::{Disk, DiskFailed};
use file_roots::{header_of, write_area};
use file_sections::finish_root;
use file_state::FileState;
use grid_types::Geometry;
use linear_scales::Root;

/// Writes the whole table area of the root behind the kept one, whose header page is closed, and does not sync.
fn write_whole<const K: usize, D: Disk>(
    disk: &mut D,
    geometry: &Geometry,
    root: &Root<K>,
) -> Result<(), DiskFailed>
    requires attributes { geometry.now.shape.k ≡ K }
    requires root { IsRoot geometry.now.shape root.now }
    requires size { file_pages geometry.now.shape * PAGE_BYTES ≤ D.extent disk.old }
    ensures moments { (k : Kept K) (tried : Option WholeRoot)
        → AwaitsNumber k geometry.now.shape root.now.number
        → Meets D.Disk k disk.old
        → StaysShown D.Disk (with_tried k tried) disk.old disk.new }
    ensures kept { (k : Kept K)
        → AwaitsNumber k geometry.now.shape root.now.number
        → Meets D.Disk k disk.old
        → Meets D.Disk k disk.new }
    ensures loose { (k : Kept K) (tried : Option WholeRoot)
        → AwaitsNumber k geometry.now.shape root.now.number
        → Meets D.Disk k disk.old
        → Meets D.Disk (with_tried k tried) disk.new }
    ensures written { IsTrue (D.honest disk.old)
        → OnOk result (HasAreaOf geometry.now.shape (whole_of root.now) (D.seen disk.new)) }
    ensures changes { Changes D.Disk KeepsLength disk.old disk.new }
    ensures cause { HasCause (D.write_count disk.old) (D.write_count disk.new) result }
{
    write_area(disk, geometry, root)
}

/// Writes the next root, whose header page is closed: at each moment the newest root or this one counts. Once it stands, the
/// pages that roots have no need of are free.
pub(crate) fn write_root<const K: usize, D: Disk>(
    disk: &mut D,
    state: &mut FileState<K>,
    next: &mut Root<K>,
) -> Result<(), DiskFailed>
    requires room { HasRoom state.old.shape next.old }
    requires more { state.old.number < 2 ^ 63 }
    requires size { file_pages state.old.shape * PAGE_BYTES ≤ D.extent disk.old }
    ensures next { IsNextRoot state.old (whole_of next.new) }
    ensures moments { (k : Kept K)
        → AwaitsNumber k state.old.shape (state.old.number + 1)
        → Meets D.Disk k disk.old
        → StaysShown D.Disk (with_tried k (Some (whole_of next.new))) disk.old disk.new }
    ensures rooted { (k : Kept K)
        → AwaitsNumber k state.old.shape (state.old.number + 1)
        → Meets D.Disk k disk.old
        → OnOk result (Meets D.Disk (with_root k (whole_of next.new)) disk.new) }
    ensures again { (k : Kept K)
        → AwaitsNumber k state.old.shape (state.old.number + 1)
        → Meets D.Disk k disk.old
        → OnErr result (Meets D.Disk (with_tried k (Some (whole_of next.new))) disk.new) }
    ensures books { OnOk result
        (state.new ≡ swept_books (rooted_books (turned_books state.old))) }
    ensures behind { OnErr result (state.new ≡ turned_books state.old) }
    ensures room { HasRoom state.old.shape next.new }
    ensures durable { OnOk result (IsSynced D.Disk disk.new) }
    ensures changes { Changes D.Disk KeepsLength disk.old disk.new }
    ensures cause { HasCause (D.write_count disk.old) (D.write_count disk.new) result }
{
    let geometry = state.geometry();
    state.turn();
    state.copy_root(next);
    write_whole(disk, &geometry, next)?;
    finish_root(disk, &geometry, &header_of(&geometry, next))?;
    state.rooted();
    state.sweep();
    Ok(())
}
