//! The bytes of a header page.
ghost use Rattle.std.specs.Prelude.{◌≡◌, ◌≤◌, ◌+◌, ◌-◌, ◌*◌, ◌++◌, length, replicate, slice_index, take};
ghost use Rattle.grid_types.specs.declared.sizes.TheConstants.{PAGE_BYTES, MOST_ATTRIBUTES};
ghost use Rattle.page_fields.specs.Fields.{bytes_of};
ghost use Rattle.page_fields.specs.Padded.{padded, numbers};
ghost use Rattle.grid_model.specs.Spellings.{shape_bytes, root_bytes};
ghost use Rattle.root_pages.specs.Fields.{model_fields};

use crate::RootHeader;
use byteorder::{BigEndian, ByteOrder};
use grid_types::{Geometry, PAGE_BYTES};
use page_fields::{put_bytes, put_zeros, set_u16, set_u32};

/// Makes `page` the header page of a new file of this shape, whatever it was before: its gate is closed, and it says
/// nothing of a root.
pub fn encode_header(geometry: &Geometry, page: &mut [u8; PAGE_BYTES])
    ensures written { page.new ≡ padded PAGE_BYTES (shape_bytes geometry.now.shape) }
    ensures front { take 64 page.new ≡ shape_bytes geometry.now.shape }
    ensures closed { slice_index page.new 64 ≡ 0 }
{
    let shape = &geometry.shape;
    put_bytes(page, 0, b"GRIDFILE");
    set_u16(page, 8, 1);
    put_bytes(page, 10, &[shape.k, 0]);
    set_u16(page, 12, shape.capacity);
    put_bytes(page, 14, &[0, 0]);
    set_u32(page, 16, shape.pages);
    set_u32(page, 20, shape.slots);
    set_u32(page, 24, shape.boundaries);
    set_u32(page, 28, shape.cells);
    put_zeros(page, 32, PAGE_BYTES);
}

fn put_u64(bytes: &mut [u8; 56], at: usize, v: u64)
    requires { at + 8 ≤ 56 }
    ensures { take (at + 8) bytes.new ≡ take at bytes.old ++ bytes_of 8 v }
{
    BigEndian::write_u64(&mut bytes[at..at + 8], v);
}

fn put_u32(bytes: &mut [u8; 56], at: usize, v: u32)
    requires { at + 4 ≤ 56 }
    ensures { take (at + 4) bytes.new ≡ take at bytes.old ++ bytes_of 4 v }
{
    BigEndian::write_u32(&mut bytes[at..at + 4], v);
}

fn clear(bytes: &mut [u8; 56], from: usize, to: usize)
    requires ordered { from ≤ to }
    requires inside { to ≤ 56 }
    ensures { take to bytes.new ≡ take from bytes.old ++ replicate (to - from) 0 }
{
    bytes[from..to].fill(0);
}

/// Writes how many boundaries each scale has, and zeros for the scales that there are not.
fn put_counts(bytes: &mut [u8; 56], counts: &[u32])
    requires { length counts.now ≤ MOST_ATTRIBUTES }
    ensures { take 48 bytes.new ≡ take 32 bytes.old ++ padded 16 (numbers 4 counts.now) }
{
    for a in 0..counts.len() {
        put_u32(bytes, 32 + 4 * a, counts[a]);
    }
    clear(bytes, 32 + 4 * counts.len(), 48);
}

/// Makes `bytes` the fields of a root as a header page has them from byte 72 on.
pub fn encode_fields(fields: &RootHeader, bytes: &mut [u8; 56])
    ensures { bytes.new ≡ root_bytes (model_fields fields.now) }
{
    put_u64(bytes, 0, fields.number);
    put_u64(bytes, 8, fields.session);
    put_u64(bytes, 16, fields.front);
    put_u64(bytes, 24, fields.records);
    put_counts(bytes, fields.boundaries.as_slice());
    put_u32(bytes, 48, fields.parts);
    put_u32(bytes, 52, fields.buckets);
}
