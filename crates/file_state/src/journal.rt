//! The halves of the journal.
ghost use Rattle.std.specs.Prelude.{◌≡◌, ◌<◌, ◌≤◌, ◌+◌, ◌^◌};
ghost use Rattle.grid_types.specs.Halves.{half_number};
ghost use Rattle.file_state.specs.Journals.{used_slots, other_number, with_slots};

use crate::memory::Journal;
use grid_types::Half;

/// The other half.
pub(crate) fn other(half: Half) -> Half
    ensures { half_number result ≡ other_number (half_number half) }
{
    match half {
        Half::First => Half::Second,
        Half::Second => Half::First,
    }
}

impl Journal {
    /// How many slots of a half are used.
    pub(crate) fn used(&self, half: Half) -> u32
        ensures { result ≡ used_slots self.now (half_number half) }
    {
        match half {
            Half::First => self.first_used,
            Half::Second => self.second_used,
        }
    }

    /// So many slots of a half are used.
    pub(crate) fn set_used(&mut self, half: Half, used: u32)
        ensures { self.new ≡ with_slots self.old (half_number half) used }
    {
        match half {
            Half::First => self.first_used = used,
            Half::Second => self.second_used = used,
        }
    }
}
