//! Numbers of two, four and eight bytes.
ghost use Rattle.std.specs.Prelude.{◌≡◌, ◌≤◌, ◌+◌, ◌++◌, drop, take};
ghost use Rattle.page_fields.specs.Fields.{number, bytes_of, replaced};
ghost use Rattle.grid_types.specs.declared.sizes.TheConstants.{PAGE_BYTES};

use byteorder::{BigEndian, ByteOrder};
use grid_types::PAGE_BYTES;

/// The number whose two bytes stand at an offset.
pub fn get_u16(page: &[u8; PAGE_BYTES], at: usize) -> u16
    requires { at + 2 ≤ PAGE_BYTES }
    ensures { result ≡ number 2 (drop at page.now) }
{
    BigEndian::read_u16(&page[at..])
}

/// The number whose four bytes stand at an offset.
pub fn get_u32(page: &[u8; PAGE_BYTES], at: usize) -> u32
    requires { at + 4 ≤ PAGE_BYTES }
    ensures { result ≡ number 4 (drop at page.now) }
{
    BigEndian::read_u32(&page[at..])
}

/// The number whose eight bytes stand at an offset.
pub fn get_u64(page: &[u8; PAGE_BYTES], at: usize) -> u64
    requires { at + 8 ≤ PAGE_BYTES }
    ensures { result ≡ number 8 (drop at page.now) }
{
    BigEndian::read_u64(&page[at..])
}

/// Writes a number into the two bytes at an offset.
pub fn set_u16(page: &mut [u8; PAGE_BYTES], at: usize, v: u16)
    requires { at + 2 ≤ PAGE_BYTES }
    ensures written { page.new ≡ replaced at (bytes_of 2 v) page.old }
    ensures front { take (at + 2) page.new ≡ take at page.old ++ bytes_of 2 v }
{
    BigEndian::write_u16(&mut page[at..at + 2], v);
}

/// Writes a number into the four bytes at an offset.
pub fn set_u32(page: &mut [u8; PAGE_BYTES], at: usize, v: u32)
    requires { at + 4 ≤ PAGE_BYTES }
    ensures written { page.new ≡ replaced at (bytes_of 4 v) page.old }
    ensures front { take (at + 4) page.new ≡ take at page.old ++ bytes_of 4 v }
{
    BigEndian::write_u32(&mut page[at..at + 4], v);
}

/// Writes a number into the eight bytes at an offset.
pub fn set_u64(page: &mut [u8; PAGE_BYTES], at: usize, v: u64)
    requires { at + 8 ≤ PAGE_BYTES }
    ensures written { page.new ≡ replaced at (bytes_of 8 v) page.old }
    ensures front { take (at + 8) page.new ≡ take at page.old ++ bytes_of 8 v }
{
    BigEndian::write_u64(&mut page[at..at + 8], v);
}
