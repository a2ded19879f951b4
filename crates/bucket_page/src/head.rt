//! The head of a bucket's page.
ghost use Rattle.std.specs.Prelude.{◌≡◌, ◌<◌, ◌≤◌, ◌↔◌, ℕ, IsTrue, slice_index};
ghost use Rattle.grid_types.specs.declared.sizes.TheConstants.{MOST_ATTRIBUTES};
ghost use Rattle.bucket_page.specs.OnPage.{head_told};
ghost use Rattle.bucket_page.specs.Judging.{IsHeadFramed, IsSoundHead};

use grid_types::{HEAD_BYTES, KEY_BYTES, PAGE_BYTES, Region};
use page_fields::{get_corner, get_u16, get_u32, zeros};

/// What a bucket's page says of its bucket, beside the records.
#[derive(Clone, Copy, Debug, PartialEq, Eq)]
pub struct Head<const K: usize> {
    pub number: u32,
    /// How many records there are.
    pub count: u16,
    /// The attribute that is tried first when the bucket is cut at a new boundary.
    pub turn: u8,
    pub region: Region<K>,
}

/// The fields of a page's head, whatever stands around them.
pub fn read_head<const K: usize>(page: &[u8; PAGE_BYTES]) -> Head<K>
    requires few { K ≤ MOST_ATTRIBUTES }
    ensures { result ≡ head_told K page.now }
{
    Head {
        number: get_u32(page, 4),
        count: get_u16(page, 8),
        turn: page[10],
        region: Region {
            lo: get_corner(page, 16),
            hi: get_corner(page, 16 + KEY_BYTES),
        },
    }
}

/// Whether the bytes of a head that no field of it tells are what they have to be.
fn is_framed<const K: usize>(page: &[u8; PAGE_BYTES]) -> bool
    requires few { K ≤ MOST_ATTRIBUTES }
    ensures { IsTrue result ↔ IsHeadFramed K page.now }
{
    page.starts_with(b"GFB1")
        && page[11] as usize == K
        && zeros(page, 12, 16)
        && zeros(page, 16 + 8 * K, 16 + KEY_BYTES)
        && zeros(page, 16 + KEY_BYTES + 8 * K, HEAD_BYTES)
}

/// Whether the region has a key.
fn is_ordered<const K: usize>(region: &Region<K>) -> bool
    ensures { IsTrue result
        ↔ ((a : ℕ) → a < K → slice_index region.now.lo a ≤ slice_index region.now.hi a) }
{
    for a in 0..K {
        if region.hi[a] < region.lo[a] {
            return false;
        }
    }
    true
}

/// Whether the page has a bucket's head, and these fields of it are lawful.
pub fn is_sound_head<const K: usize>(page: &[u8; PAGE_BYTES], head: &Head<K>) -> bool
    requires few { K ≤ MOST_ATTRIBUTES }
    ensures { IsTrue result ↔ IsSoundHead K page.now head.now }
{
    is_framed::<K>(page) && (head.turn as usize) < K && is_ordered(&head.region)
}
