//! The gate page of a half of the journal. The gate of slot i is the byte at 96 + i.
ghost use Rattle.std.specs.Prelude.{◌≡◌, ◌≤◌, ◌↔◌, IsTrue, length};
ghost use Rattle.grid_types.specs.declared.sizes.TheConstants.{MOST_SLOTS};
ghost use Rattle.grid_types.specs.Halves.{half_number};
ghost use Rattle.grid_model.specs.Images.{last_gate};
ghost use Rattle.grid_model.specs.Spellings.{gate_spelling};
ghost use Rattle.journal_slots.specs.Gates.{IsGatePage, IsGateHead, gates_in};

use grid_types::{HEAD_BYTES, Half, PAGE_BYTES};
use page_fields::{put_bytes, put_zeros, set_u32, zeros};

/// Whether a gate is open. Any value but 1 is closed.
pub fn is_open(gate: u8) -> bool
    ensures { IsTrue result ↔ (gate ≡ 1) }
{
    gate == 1
}

/// The number that a half has on its gate page.
fn number(half: Half) -> u8
    ensures { result ≡ half_number half }
{
    match half {
        Half::First => 0,
        Half::Second => 1,
    }
}

/// Makes `page` the gate page of a half with these gates, whatever it was before.
pub fn encode_gates(half: Half, gates: &[u8], page: &mut [u8; PAGE_BYTES])
    requires few { length gates.now ≤ MOST_SLOTS }
    ensures { page.new ≡ gate_spelling (half_number half) gates.now }
{
    put_bytes(page, 0, b"GFG1");
    set_u32(page, 4, number(half) as u32);
    put_zeros(page, 8, HEAD_BYTES);
    put_bytes(page, HEAD_BYTES, gates);
    put_zeros(page, HEAD_BYTES + gates.len(), PAGE_BYTES);
}

/// Whether the front of the page is the head of the gate page of that half.
fn has_head(page: &[u8; PAGE_BYTES], half: Half) -> bool
    ensures { IsTrue result ↔ IsGateHead (half_number half) page.now }
{
    page[..8] == [b'G', b'F', b'G', b'1', 0, 0, 0, number(half)] && zeros(page, 8, HEAD_BYTES)
}

/// Whether this is the gate page of that half with so many slots, whatever their gates are.
pub fn is_gate_page(page: &[u8; PAGE_BYTES], half: Half, slots: u32) -> bool
    requires few { slots ≤ MOST_SLOTS }
    ensures judged { IsTrue result ↔ IsGatePage (half_number half) slots page.now }
    ensures gates { IsTrue result
        → page.now ≡ gate_spelling (half_number half) (gates_in slots page.now) }
{
    has_head(page, half) && zeros(page, HEAD_BYTES + slots as usize, PAGE_BYTES)
}

/// How many slots are in use: those up to the last gate that is not 0.
pub fn slots_in_use(gates: &[u8]) -> usize
    ensures value { result ≡ last_gate gates.now }
    ensures few { result ≤ length gates.now }
{
    let mut used = 0;
    for (i, gate) in gates.iter().enumerate() {
        if *gate != 0 {
            used = i + 1;
        }
    }
    used
}
