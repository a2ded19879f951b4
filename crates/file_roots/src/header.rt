//! What is written on a header page: the fields of a root, and behind a sync its gate.
ghost use Rattle.std.specs.Prelude.{◌≡◌, ◌≢◌, ◌≤◌, ◌+◌, ◌*◌, ◌%◌, Option, Some, IsTrue, length, OnOk, OnErr};
ghost use Rattle.grid_types.specs.declared.sizes.TheConstants.{PAGE_BYTES};
ghost use Rattle.grid_types.specs.Shapes.{file_pages, header_page};
ghost use Rattle.grid_model.specs.Spellings.{root_bytes};
ghost use Rattle.grid_model.specs.Images.{header_gate, root_fields};
ghost use Rattle.grid_model.specs.Roots.{WholeRoot, IsNewestWhole};
ghost use Rattle.root_pages.specs.Fields.{model_fields};
ghost use Rattle.disk_trait.specs.Calls.{Changes, IsSynced};
ghost use Rattle.disk_trait.specs.Causes.{HasCause};
ghost use Rattle.disk_trait.specs.Disk.{Agrees, Holds};
ghost use Rattle.disk_trait.specs.Moments.{Always};
ghost use Rattle.file_roots.specs.Places.{FieldsAlone};
ghost use Rattle.file_roots.specs.Writing.{HasNewFields, IsHeaderWritten, HeaderStep, MayBeWritten, AwaitsHeader, StaysReplaceable};

use disk_trait::{Disk, DiskFailed, write_through};
use grid_types::{Geometry, PAGE_BYTES};
use root_pages::{RootHeader, encode_fields};

/// Where a header page has its gate.
pub const GATE: u64 = 64;

/// Where a header page has the fields of a root.
const FIELDS: u64 = 72;

/// Writes bytes of the header page of a root with this number, and syncs.
fn write_on_header<D: Disk>(
    disk: &mut D,
    number: u64,
    offset: u64,
    bytes: &[u8],
) -> Result<(), DiskFailed>
    requires some { 1 ≤ length bytes.now }
    requires page { offset + length bytes.now ≤ PAGE_BYTES }
    requires size { 2 * PAGE_BYTES ≤ D.extent disk.old }
    ensures written { IsTrue (D.honest disk.old)
        → OnOk result (Holds (D.seen disk.old)
        (header_page number * PAGE_BYTES + offset) bytes.now (D.seen disk.new)) }
    ensures durable { OnOk result (IsSynced D.Disk disk.new) }
    ensures changes { Changes D.Disk
        (Agrees (header_page number * PAGE_BYTES + offset) (length bytes.now))
        disk.old disk.new }
    ensures cause { HasCause (D.write_count disk.old) (D.write_count disk.new) result }
{
    write_through(disk, number % 2 * PAGE_BYTES as u64 + offset, bytes)
}

/// Writes the fields of a root, and syncs.
fn write_fields<D: Disk>(disk: &mut D, fields: &RootHeader) -> Result<(), DiskFailed>
    requires size { 2 * PAGE_BYTES ≤ D.extent disk.old }
    ensures fields { IsTrue (D.honest disk.old)
        → OnOk result (root_fields (D.seen disk.new) (header_page fields.now.number)
        ≡ root_bytes (model_fields fields.now)) }
    ensures durable { OnOk result (IsSynced D.Disk disk.new) }
    ensures changes { Changes D.Disk (FieldsAlone fields.now.number) disk.old disk.new }
    ensures cause { HasCause (D.write_count disk.old) (D.write_count disk.new) result }
{
    let mut bytes = [0; 56];
    encode_fields(fields, &mut bytes);
    write_on_header(disk, fields.number, FIELDS, &bytes)
}

/// Writes the fields of a root, syncs, opens its gate, and syncs. It takes no memory. Where its header page was closed and
/// its table area stands in the file, the gate makes it a root.
pub fn write_header<D: Disk>(
    disk: &mut D,
    geometry: &Geometry,
    fields: &RootHeader,
) -> Result<(), DiskFailed>
    requires size { file_pages geometry.now.shape * PAGE_BYTES ≤ D.extent disk.old }
    ensures written { IsTrue (D.honest disk.old)
        → OnOk result (IsHeaderWritten (model_fields fields.now)
        (D.seen disk.old) (D.seen disk.new)) }
    ensures changes { Changes D.Disk
        (HeaderStep (model_fields fields.now) (D.seen disk.old)) disk.old disk.new }
    ensures fields_first { IsTrue (D.honest disk.old)
        → header_gate (D.seen disk.new) (header_page fields.now.number)
        ≢ header_gate (D.seen disk.old) (header_page fields.now.number)
        → Always (D.may_leave disk.new)
        (HasNewFields (model_fields fields.now) (D.seen disk.old)) }
    ensures replaceable { (old : Option WholeRoot) (new : WholeRoot)
        → AwaitsHeader D.Disk geometry.now.shape (model_fields fields.now) old new disk.old
        → StaysReplaceable D.Disk geometry.now.shape
        new.fields.number old (Some new) disk.old disk.new }
    ensures again { (old : Option WholeRoot) (new : WholeRoot)
        → AwaitsHeader D.Disk geometry.now.shape (model_fields fields.now) old new disk.old
        → OnErr result (MayBeWritten D.Disk geometry.now.shape
        new.fields.number old (Some new) disk.new) }
    ensures newest { (old : Option WholeRoot) (new : WholeRoot)
        → AwaitsHeader D.Disk geometry.now.shape (model_fields fields.now) old new disk.old
        → OnOk result (IsNewestWhole geometry.now.shape new (D.seen disk.new)) }
    ensures durable { OnOk result (IsSynced D.Disk disk.new) }
    ensures cause { HasCause (D.write_count disk.old) (D.write_count disk.new) result }
{
    write_fields(disk, fields)?;
    write_on_header(disk, fields.number, GATE, &[1])
}
