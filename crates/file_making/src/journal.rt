//! The gate pages of a new file.
ghost use Rattle.std.specs.Prelude.{◌≡◌, ◌≤◌, replicate};
ghost use Rattle.grid_types.specs.declared.sizes.TheConstants.{MOST_SLOTS};
ghost use Rattle.grid_types.specs.Halves.{half_number};
ghost use Rattle.grid_model.specs.Spellings.{gate_spelling};

use grid_types::{Half, MOST_SLOTS, PAGE_BYTES};
use journal_slots::encode_gates;

/// Makes `page` the gate page of a half with so many gates, all 0.
pub fn encode_shut(half: Half, slots: u32, page: &mut [u8; PAGE_BYTES])
    requires few { slots ≤ MOST_SLOTS }
    ensures { page.new ≡ gate_spelling (half_number half) (replicate slots 0) }
{
    let gates = [0; MOST_SLOTS];
    encode_gates(half, &gates[..slots as usize], page);
}
