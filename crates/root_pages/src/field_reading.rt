//! The gate of a header page, and what it says of a root.
ghost use Rattle.std.specs.Prelude.{◌≡◌, ◌≤◌, ◌<◌, ◌^◌, ◌+◌, ◌*◌, ◌↔◌, ℕ, IsTrue, IfSome, IfNone, length, take, drop, slice_index};
ghost use Rattle.grid_types.specs.declared.sizes.TheConstants.{MOST_ATTRIBUTES};
ghost use Rattle.page_fields.specs.Fields.{number};
ghost use Rattle.grid_model.specs.Spellings.{RootFields, root_bytes};
ghost use Rattle.root_pages.specs.Fields.{model_fields};
ghost use Rattle.root_pages.specs.Headers.{SpellsRoot, SpellsNoRoot};
ghost use Rattle.root_pages.specs.Reading.{FieldsAt};

use crate::lawful::is_lawful;
use crate::{RootHeader, encode_fields};
use arrayvec::ArrayVec;
use grid_types::{Geometry, MOST_ATTRIBUTES, PAGE_BYTES};
use page_fields::{get_u32, get_u64};

/// Whether the gate of the header page is open. Any value but 1 is closed.
pub fn is_open(page: &[u8; PAGE_BYTES]) -> bool
    ensures { IsTrue result ↔ (slice_index page.now 64 ≡ 1) }
{
    page[64] == 1
}

/// The number of the root of which the header page speaks. It says nothing of the other fields, which `decode_fields`
/// judges.
pub fn root_number(page: &[u8; PAGE_BYTES]) -> u64
    ensures number { result ≡ number 8 (drop 72 page.now) }
    ensures root { (r : RootFields)
        → take 56 (drop 72 page.now) ≡ root_bytes r
        → r.number < 2 ^ 64
        → result ≡ r.number }
{
    get_u64(page, 72)
}

/// The numbers that stand where a header page has how many boundaries each scale has.
fn counts_in(page: &[u8; PAGE_BYTES], attributes: usize) -> ArrayVec<u32, MOST_ATTRIBUTES>
    requires { attributes ≤ MOST_ATTRIBUTES }
    ensures count { length result.items ≡ attributes }
    ensures each { (a : ℕ)
        → a < attributes
        → slice_index result.items a ≡ number 4 (drop (104 + 4 * a) page.now) }
{
    let mut counts = ArrayVec::new();
    for a in 0..attributes {
        counts.push(get_u32(page, 104 + 4 * a));
    }
    counts
}

/// The numbers that stand where a header page has those of a root, whether lawful or not.
fn fields_in(page: &[u8; PAGE_BYTES], attributes: usize) -> RootHeader
    requires { attributes ≤ MOST_ATTRIBUTES }
    ensures at { FieldsAt 72 page.now (model_fields result) }
    ensures count { length result.boundaries.items ≡ attributes }
{
    RootHeader {
        number: get_u64(page, 72),
        session: get_u64(page, 80),
        front: get_u64(page, 88),
        records: get_u64(page, 96),
        boundaries: counts_in(page, attributes),
        parts: get_u32(page, 120),
        buckets: get_u32(page, 124),
    }
}

/// Whether the header page has the one spelling of these fields.
fn is_spelled(page: &[u8; PAGE_BYTES], fields: &RootHeader) -> bool
    ensures { IsTrue result ↔ (take 56 (drop 72 page.now) ≡ root_bytes (model_fields fields.now)) }
{
    let mut again = [0; 56];
    encode_fields(fields, &mut again);
    page[72..128] == again[..]
}

/// The lawful fields of a root on this header page, 0 or 1, of a file of this shape. There are some at most once, and
/// the gate is not looked at.
#[tactic(auto, using(crate::proofs::Roots::few_attributes))]
pub fn decode_fields(page: &[u8; PAGE_BYTES], geometry: &Geometry, header: u8) -> Option<RootHeader>
    requires { header < 2 }
    ensures found { IfSome result (λ f.
        SpellsRoot geometry.now.shape header page.now (model_fields f)) }
    ensures only { IfSome result (λ f. (r : RootFields)
        → SpellsRoot geometry.now.shape header page.now r
        → r ≡ model_fields f) }
    ensures none { IfNone result (SpellsNoRoot geometry.now.shape header page.now) }
{
    let fields = fields_in(page, geometry.shape.k as usize);
    if !is_lawful(&fields, geometry, header) {
        return None;
    }
    if !is_spelled(page, &fields) {
        return None;
    }
    Some(fields)
}
