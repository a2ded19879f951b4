//! The header page with the root of a new file.
ghost use Rattle.std.specs.Prelude.{◌≡◌, ◌≤◌, replicate};
ghost use Rattle.grid_types.specs.declared.sizes.TheConstants.{MOST_ATTRIBUTES};
ghost use Rattle.root_pages.specs.Fields.{model_fields};
ghost use Rattle.file_images.specs.NewFiles.{new_fields};
ghost use Rattle.file_making.specs.NewPages.{new_root_page};

use arrayvec::ArrayVec;
use grid_types::{Geometry, MOST_ATTRIBUTES, PAGE_BYTES};
use page_fields::{put_bytes, put_zeros};
use root_pages::{RootHeader, encode_fields, encode_header};

/// Where a header page has its gate.
const GATE: usize = 64;

/// Where a header page has the fields of a root.
const FIELDS: usize = 72;

/// How many boundaries the scales of a new file have.
fn no_boundaries(k: u8) -> ArrayVec<u32, MOST_ATTRIBUTES>
    requires few { k ≤ MOST_ATTRIBUTES }
    ensures { result.items ≡ replicate k 0 }
{
    let mut counts = ArrayVec::new();
    for _a in 0..k {
        counts.push(0);
    }
    counts
}

/// The fields of the root of a new file.
fn first_fields(k: u8) -> RootHeader
    requires few { k ≤ MOST_ATTRIBUTES }
    ensures { model_fields result ≡ new_fields k }
{
    RootHeader {
        number: 0,
        session: 0,
        front: 0,
        records: 0,
        boundaries: no_boundaries(k),
        parts: 1,
        buckets: 1,
    }
}

/// Makes `page` the header page with the root of a new file.
pub fn encode_root(geometry: &Geometry, page: &mut [u8; PAGE_BYTES])
    ensures { page.new ≡ new_root_page geometry.now.shape.k geometry.now.shape }
{
    encode_header(geometry, page);
    let mut fields = [0; 56];
    encode_fields(&first_fields(geometry.shape.k), &mut fields);
    put_bytes(page, GATE, &[1, 0, 0, 0, 0, 0, 0, 0]);
    put_bytes(page, FIELDS, &fields);
    put_zeros(page, FIELDS + 56, PAGE_BYTES);
}
