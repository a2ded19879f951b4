//! What a change of a byte may do to a file.
ghost use Rattle.std.specs.Prelude.{◌<◌, IfSome};

use crate::flips::Flip;
use grid_types::{Geometry, Half, Refusal};

/// Where a header page has its gate, behind the shape.
const HEADER_GATE: u16 = 64;

/// Where a gate page has its first gate.
const FIRST_GATE: u16 = 96;

/// Whether a byte of a header page is one of the root's number.
fn is_of_number(at: u16) -> bool {
    72 <= at && at < 80
}

/// Whether a byte of a header page is one of the root's session.
fn is_of_session(at: u16) -> bool {
    80 <= at && at < 88
}

/// Whether a byte of a header page is one of the root's front.
fn is_of_front(at: u16) -> bool {
    88 <= at && at < 96
}

/// Whether a page is one of the table area of that header page.
fn is_in_area(geometry: &Geometry, header: u32, page: u32) -> bool {
    let area = geometry.area_pages();
    let first = if header == 0 { 2 } else { 2 + area };
    first <= page && page < first + area
}

/// Whether a page stands behind the journal.
fn is_data_page(geometry: &Geometry, page: u32) -> bool {
    let gates = u64::from(geometry.gate_page(Half::Second));
    gates + u64::from(geometry.shape.slots) < u64::from(page)
}

/// Whether a page is one of the journal.
fn is_journal_page(geometry: &Geometry, page: u32) -> bool {
    geometry.gate_page(Half::First) <= page && !is_data_page(geometry, page)
}

/// Whether a change of the gate or of the fields of a root may make that page damaged.
fn may_damage_by_root(geometry: &Geometry, flip: &Flip, page: u32) -> bool {
    if flip.at == HEADER_GATE {
        // No root is open then.
        page == 0
    } else if is_of_number(flip.at) {
        // The other root has the same number then, or another parity, or the table area is of another root.
        page <= 1 || is_in_area(geometry, flip.page, page)
    } else if is_of_front(flip.at) {
        // The batches behind another front are not of this root.
        page == flip.page || is_journal_page(geometry, page)
    } else {
        page == flip.page || is_in_area(geometry, flip.page, page)
    }
}

/// Whether a change of a header page may make that page damaged.
fn may_damage_by_header(geometry: &Geometry, flip: &Flip, page: u32) -> bool {
    if flip.at < HEADER_GATE {
        // The two pages differ then, or the file is shorter than its shape.
        page <= 1 || u64::from(page) == geometry.shape.file_pages()
    } else {
        may_damage_by_root(geometry, flip, page)
    }
}

/// The gate of a half that a change turns.
fn gate_of(geometry: &Geometry, half: Half, flip: &Flip) -> Option<u32>
    ensures { IfSome result (λ slot. slot < geometry.now.shape.slots) }
{
    if flip.page != geometry.gate_page(half) || flip.at < FIRST_GATE {
        return None;
    }
    let slot = u32::from(flip.at - FIRST_GATE);
    if slot < geometry.shape.slots {
        Some(slot)
    } else {
        None
    }
}

/// Whether a change turns a gate of a half over that slot page.
fn is_gate_over(geometry: &Geometry, half: Half, flip: &Flip, page: u32) -> bool {
    match gate_of(geometry, half, flip) {
        Some(slot) => page == geometry.slot_page(half, slot),
        None => false,
    }
}

/// Whether a change may make that page damaged.
fn may_damage(geometry: &Geometry, flip: &Flip, page: u32) -> bool {
    if flip.page <= 1 {
        return may_damage_by_header(geometry, flip, page);
    }
    page == flip.page
        || is_gate_over(geometry, Half::First, flip, page)
        || is_gate_over(geometry, Half::Second, flip, page)
}

/// Whether a change turns a number of a root that may reach its limit.
fn may_wear(flip: &Flip) -> bool {
    flip.page <= 1 && (is_of_number(flip.at) || is_of_session(flip.at) || is_of_front(flip.at))
}

/// Whether a refusal is what a change may mean: no file of this kind, another version, a number at its limit, or a page that is
/// damaged by it.
pub fn is_meant(geometry: &Geometry, flip: &Flip, refusal: Refusal) -> bool {
    match refusal {
        Refusal::Foreign => flip.page == 0 && flip.at < 8,
        Refusal::Version { .. } => flip.page == 0 && 8 <= flip.at && flip.at < 10,
        Refusal::Worn { .. } => may_wear(flip),
        Refusal::Damaged { page } => may_damage(geometry, flip, page),
        _ => false,
    }
}

/// Whether a listing may be refused so, where the file was opened: an older root is the newest then, of which a data page has been
/// used again.
pub fn may_break(geometry: &Geometry, flip: &Flip, refusal: Refusal) -> bool {
    match refusal {
        Refusal::Damaged { page } => {
            flip.page <= 1
                && (flip.at == HEADER_GATE || is_of_number(flip.at))
                && is_data_page(geometry, page)
        }
        _ => false,
    }
}

/// Whether a change may hide updates: one of a gate, or of the number or the session of a root.
pub fn may_hide(geometry: &Geometry, flip: &Flip) -> bool {
    if flip.page <= 1 {
        return flip.at == HEADER_GATE || is_of_number(flip.at) || is_of_session(flip.at);
    }
    gate_of(geometry, Half::First, flip).is_some()
        || gate_of(geometry, Half::Second, flip).is_some()
}

/// Whether a change may give a table another place, or leave out updates before others: one of the front of a root.
pub fn may_mislead(flip: &Flip) -> bool {
    flip.page <= 1 && is_of_front(flip.at)
}
