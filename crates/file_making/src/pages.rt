//! The page of a number in a new file.
ghost use Rattle.std.specs.Prelude.{◌≡◌, ◌<◌, ◌≤◌, ◌+◌, ◌*◌, ℕ};
ghost use Rattle.grid_types.specs.Shapes.{area_pages, file_pages};
ghost use Rattle.file_making.specs.Contents.{content_bytes, HasBytes};

use crate::area::encode_area;
use crate::content::Content;
use crate::data::{encode_bucket, encode_directory};
use crate::headers::encode_root;
use crate::journal::encode_shut;
use grid_types::{Geometry, Half, PAGE_BYTES};
use page_fields::put_zeros;
use root_pages::encode_header;

/// What the page of that number has, behind the first table area.
fn content_behind(geometry: &Geometry, number: u32) -> Content
    requires behind { 2 + area_pages geometry.now.shape ≤ number }
    ensures { HasBytes geometry.now.shape.k geometry.now.shape number
        (content_bytes geometry.now.shape.k geometry.now.shape result) }
{
    if number == geometry.gate_page(Half::First) {
        Content::Gates(Half::First)
    } else if number == geometry.gate_page(Half::Second) {
        Content::Gates(Half::Second)
    } else if number == geometry.data_page(0) {
        Content::Directory
    } else if number == geometry.data_page(1) {
        Content::FirstBucket
    } else {
        Content::Zeros
    }
}

/// What the page of that number has.
fn content_at(geometry: &Geometry, number: u32) -> Content
    ensures { HasBytes geometry.now.shape.k geometry.now.shape number
        (content_bytes geometry.now.shape.k geometry.now.shape result) }
{
    if number == 0 {
        Content::Root
    } else if number == 1 {
        Content::Front
    } else if number < 2 + geometry.area_pages() {
        Content::Area(number - 2)
    } else {
        content_behind(geometry, number)
    }
}

/// Makes `page` a page that has this.
fn encode_content(geometry: &Geometry, content: Content, page: &mut [u8; PAGE_BYTES])
    ensures { page.new ≡ content_bytes geometry.now.shape.k geometry.now.shape content }
{
    match content {
        Content::Root => encode_root(geometry, page),
        Content::Front => encode_header(geometry, page),
        Content::Area(index) => encode_area(geometry, index, page),
        Content::Gates(half) => encode_shut(half, geometry.shape.slots, page),
        Content::Directory => encode_directory(page),
        Content::FirstBucket => encode_bucket(geometry.shape.k, page),
        Content::Zeros => put_zeros(page, 0, PAGE_BYTES),
    }
}

/// Makes `page` the page of that number in a new file, whatever it was before.
pub fn encode_page(geometry: &Geometry, number: u32, page: &mut [u8; PAGE_BYTES])
    ensures { HasBytes geometry.now.shape.k geometry.now.shape number page.new }
{
    encode_content(geometry, content_at(geometry, number), page);
}
