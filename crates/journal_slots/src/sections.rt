//! What is written into the journal: a batch, a gate that is opened, and gates that are closed. Each is on the disk when
//! its call is done.
ghost use Rattle.std.specs.Prelude.{◌≡◌, ◌<◌, ◌≤◌, ◌+◌, ◌*◌, ◌/◌, ◌%◌, ◌∷◌, [], IsTrue, OnOk, replicate};
ghost use Rattle.grid_types.specs.declared.sizes.TheConstants.{PAGE_BYTES, HEAD_BYTES, MOST_SLOTS};
ghost use Rattle.grid_types.specs.Halves.{half_number};
ghost use Rattle.grid_types.specs.Shapes.{file_pages, slot_page, slot_gate_at};
ghost use Rattle.disk_trait.specs.Causes.{HasCause};
ghost use Rattle.disk_trait.specs.Disk.{Agrees, Holds};
ghost use Rattle.disk_trait.specs.Calls.{Changes, IsSynced};
ghost use Rattle.grid_model.specs.Lawful.{IsBatch};
ghost use Rattle.grid_model.specs.Slots.{HasBatch};
ghost use Rattle.journal_slots.specs.Batches.{batch_of};

use crate::{Batch, encode};
use disk_trait::{Disk, DiskFailed, write_through};
use grid_types::{Geometry, HEAD_BYTES, Half, MOST_SLOTS, PAGE_BYTES};

/// Closed gates, for each slot that a half may have.
const CLOSED: [u8; MOST_SLOTS] = [0; MOST_SLOTS];

/// The byte of a slot's gate, counted from the start of the file.
pub(crate) fn gate_at(geometry: &Geometry, half: Half, slot: u32) -> u64
    requires inside { slot < geometry.now.shape.slots }
    ensures value { result ≡ slot_gate_at geometry.now.shape (half_number half) slot }
    ensures inside { result / PAGE_BYTES < file_pages geometry.now.shape }
    ensures in_page { result % PAGE_BYTES ≡ HEAD_BYTES + slot }
    ensures few { geometry.now.shape.slots ≤ MOST_SLOTS }
{
    geometry.gate_page(half) as u64 * PAGE_BYTES as u64 + HEAD_BYTES as u64 + slot as u64
}

/// Writes a batch on its slot page and syncs. At each moment of it a crash leaves what it might have left before, but for
/// the bytes of that page.
pub fn write_batch<const K: usize, D: Disk>(
    disk: &mut D,
    geometry: &Geometry,
    half: Half,
    slot: u32,
    batch: &Batch<K>,
) -> Result<(), DiskFailed>
    requires inside { slot < geometry.now.shape.slots }
    requires size { file_pages geometry.now.shape * PAGE_BYTES ≤ D.extent disk.old }
    requires few { K ≤ 4 }
    requires batch { IsBatch (batch_of batch.now) }
    ensures spelled { IsTrue (D.honest disk.old)
        → OnOk result (HasBatch geometry.now.shape (half_number half) slot
        (batch_of batch.now) (D.seen disk.new)) }
    ensures durable { OnOk result (IsSynced D.Disk disk.new) }
    ensures changes { Changes D.Disk
        (Agrees (slot_page geometry.now.shape (half_number half) slot * PAGE_BYTES) PAGE_BYTES)
        disk.old disk.new }
    ensures cause { HasCause (D.write_count disk.old) (D.write_count disk.new) result }
{
    let mut page = [0; PAGE_BYTES];
    encode(batch, &mut page);
    let at = geometry.slot_page(half, slot) as u64 * PAGE_BYTES as u64;
    write_through(disk, at, &page)
}

/// Opens the gate of a slot and syncs. At each moment of it a crash leaves what it might have left before, but for that
/// one byte.
pub fn open_gate<D: Disk>(
    disk: &mut D,
    geometry: &Geometry,
    half: Half,
    slot: u32,
) -> Result<(), DiskFailed>
    requires inside { slot < geometry.now.shape.slots }
    requires size { file_pages geometry.now.shape * PAGE_BYTES ≤ D.extent disk.old }
    ensures opened { IsTrue (D.honest disk.old)
        → OnOk result (Holds (D.seen disk.old)
        (slot_gate_at geometry.now.shape (half_number half) slot) (1 ∷ []) (D.seen disk.new)) }
    ensures durable { OnOk result (IsSynced D.Disk disk.new) }
    ensures changes { Changes D.Disk
        (Agrees (slot_gate_at geometry.now.shape (half_number half) slot) 1)
        disk.old disk.new }
    ensures cause { HasCause (D.write_count disk.old) (D.write_count disk.new) result }
{
    let at = gate_at(geometry, half, slot);
    write_through(disk, at, &[1])
}

/// Closes the gates of the first `used` slots of a half, in one write, and syncs. For none it does nothing.
pub fn clear_half<D: Disk>(
    disk: &mut D,
    geometry: &Geometry,
    half: Half,
    used: u32,
) -> Result<(), DiskFailed>
    requires inside { used ≤ geometry.now.shape.slots }
    requires size { file_pages geometry.now.shape * PAGE_BYTES ≤ D.extent disk.old }
    ensures cleared { IsTrue (D.honest disk.old)
        → OnOk result (Holds (D.seen disk.old)
        (slot_gate_at geometry.now.shape (half_number half) 0) (replicate used 0)
        (D.seen disk.new)) }
    ensures durable { 1 ≤ used → OnOk result (IsSynced D.Disk disk.new) }
    ensures changes { Changes D.Disk
        (Agrees (slot_gate_at geometry.now.shape (half_number half) 0) used)
        disk.old disk.new }
    ensures nothing { used ≡ 0 → disk.new ≡ disk.old }
    ensures cause { HasCause (D.write_count disk.old) (D.write_count disk.new) result }
{
    if used == 0 {
        return Ok(());
    }
    let at = gate_at(geometry, half, 0);
    write_through(disk, at, &CLOSED[..used as usize])
}
