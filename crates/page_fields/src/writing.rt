//! Fields that are written into a page. Each writer says what the page is then, and how far its front is known if it
//! was known up to the field.
ghost use Rattle.std.specs.Prelude.{◌≡◌, ◌≤◌, ◌+◌, ◌-◌, ◌*◌, ◌++◌, length, replicate, take};
ghost use Rattle.page_fields.specs.Fields.{replaced};
ghost use Rattle.page_fields.specs.Padded.{numbers, padded};
ghost use Rattle.grid_types.specs.declared.sizes.TheConstants.{KEY_BYTES, MOST_ATTRIBUTES, PAGE_BYTES};

use crate::{set_u32, set_u64};
use grid_types::{KEY_BYTES, PAGE_BYTES};

/// Writes these bytes at an offset.
pub fn put_bytes(page: &mut [u8; PAGE_BYTES], at: usize, bytes: &[u8])
    requires { at + length bytes.now ≤ PAGE_BYTES }
    ensures written { page.new ≡ replaced at bytes.now page.old }
    ensures front { take (at + length bytes.now) page.new ≡ take at page.old ++ bytes.now }
{
    page[at..at + bytes.len()].copy_from_slice(bytes);
}

/// Makes the bytes from one offset up to another 0.
pub fn put_zeros(page: &mut [u8; PAGE_BYTES], from: usize, to: usize)
    requires ordered { from ≤ to }
    requires inside { to ≤ PAGE_BYTES }
    ensures written { page.new ≡ replaced from (replicate (to - from) 0) page.old }
    ensures front { take to page.new ≡ take from page.old ++ replicate (to - from) 0 }
{
    page[from..to].fill(0);
}

/// Writes a corner into `KEY_BYTES` bytes: its numbers, and zeros behind them.
pub fn put_corner<const K: usize>(page: &mut [u8; PAGE_BYTES], at: usize, corner: &[u64; K])
    requires room { at + KEY_BYTES ≤ PAGE_BYTES }
    requires few { K ≤ MOST_ATTRIBUTES }
    ensures written { page.new ≡ replaced at (padded KEY_BYTES (numbers 8 corner.now)) page.old }
    ensures front { take (at + KEY_BYTES) page.new
        ≡ take at page.old ++ padded KEY_BYTES (numbers 8 corner.now) }
{
    for a in 0..K {
        set_u64(page, at + 8 * a, corner[a]);
    }
    put_zeros(page, at + 8 * K, at + KEY_BYTES);
}

/// Writes numbers of four bytes, one behind the other.
pub fn put_words(page: &mut [u8; PAGE_BYTES], at: usize, words: &[u32])
    requires { at + 4 * length words.now ≤ PAGE_BYTES }
    ensures written { page.new ≡ replaced at (numbers 4 words.now) page.old }
    ensures front { take (at + 4 * length words.now) page.new
        ≡ take at page.old ++ numbers 4 words.now }
{
    for (i, word) in words.iter().enumerate() {
        set_u32(page, at + 4 * i, *word);
    }
}

/// Writes numbers of eight bytes, one behind the other.
pub fn put_numbers(page: &mut [u8; PAGE_BYTES], at: usize, words: &[u64])
    requires { at + 8 * length words.now ≤ PAGE_BYTES }
    ensures written { page.new ≡ replaced at (numbers 8 words.now) page.old }
    ensures front { take (at + 8 * length words.now) page.new
        ≡ take at page.old ++ numbers 8 words.now }
{
    for (i, word) in words.iter().enumerate() {
        set_u64(page, at + 8 * i, *word);
    }
}
