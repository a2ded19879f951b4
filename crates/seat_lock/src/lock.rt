//! The lock itself. Its calls stand in files of their own.
ghost use Rattle.std.specs.Prelude.{◌≡◌};

use crate::rule::Board;
use crate::stepped::Stepped;

/// A value that seats change by single steps, one at a time. It may be shared by threads.
#[derive(Drop)]
pub struct SeatLock<C: Stepped> {
    pub(crate) table: Board<C>,
    pub(crate) seats: u32,
    pub(crate) ghost words: { table.shared.table_id.words ≡ 3 },
    pub(crate) ghost slots: { table.shared.table_id.slots ≡ 1 },
}

impl<C: Stepped> SeatLock<C> {
    ghost use Rattle.seat_lock.specs.Locks.{seat_count};

    /// How many places the value has.
    pub fn seats(&self) -> u32
        ensures { result ≡ seat_count self.now }
    {
        self.seats
    }
}
