//! The shape of a file from a header page.
ghost use Rattle.std.specs.Prelude.{◌≡◌, ◌↔◌, IsTrue, IfSome, IfNone, take};
ghost use Rattle.grid_types.specs.declared.shape.Shape.{Shape};
ghost use Rattle.grid_model.specs.Spellings.{shape_bytes};
ghost use Rattle.root_pages.specs.Headers.{SpellsShape};
ghost use Rattle.root_pages.specs.Reading.{ShapeAt};

use crate::encode_header;
use grid_types::{Geometry, PAGE_BYTES, Shape};
use page_fields::{get_u16, get_u32};

/// The numbers that stand where a shape has them, whether lawful or not.
fn shape_in(page: &[u8; PAGE_BYTES]) -> Shape
    ensures { ShapeAt page.now result }
{
    Shape {
        k: page[10],
        capacity: get_u16(page, 12),
        pages: get_u32(page, 16),
        slots: get_u32(page, 20),
        boundaries: get_u32(page, 24),
        cells: get_u32(page, 28),
    }
}

/// Whether the first bytes are the one spelling of this shape.
fn is_spelled(page: &[u8; PAGE_BYTES], geometry: &Geometry) -> bool
    ensures { IsTrue result ↔ (take 64 page.now ≡ shape_bytes geometry.now.shape) }
{
    let mut again = [0; PAGE_BYTES];
    encode_header(geometry, &mut again);
    again.starts_with(&page[..64])
}

/// The geometry of the lawful shape with which this header page begins. There is one at most.
pub fn decode_shape(page: &[u8; PAGE_BYTES]) -> Option<Geometry>
    ensures found { IfSome result (λ l. SpellsShape page.now l.shape) }
    ensures only { IfSome result (λ l. (s : Shape) → SpellsShape page.now s → s ≡ l.shape) }
    ensures none { IfNone result ((s : Shape) → SpellsShape page.now s → ⊥) }
{
    let Some(geometry) = Geometry::new(shape_in(page)) else {
        return None;
    };
    if !is_spelled(page, &geometry) {
        return None;
    }
    Some(geometry)
}
