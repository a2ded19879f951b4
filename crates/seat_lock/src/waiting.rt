//! Waiting: for the turn, and for an event to be enabled. No clause says that a wait ends.
//!
//! A seat that finds the turn busy tries again for a while, and then parks on the turn's word until the turn is given back. It has
//! left a 2 there, and whoever gives the turn back finds it and wakes one that parks. A seat whose event is not enabled
//! parks on the word of changes until that differs from what it was before the turn was taken. It has made the word odd, and the
//! next change finds that and wakes all that park there.
ghost use Rattle.std.specs.Prelude.{◌≡◌, [], None, true};
ghost use Rattle.seat_lock.specs.Locks.{table_of};
ghost use Rattle.seat_lock.specs.Plays.{Carries, Taken, TakenIf};
ghost use Rattle.seat_lock.specs.Turns.{SameSeat, Becomes};

use crate::lock::SeatLock;
use crate::rule::{Bump, SeatOf};
use crate::stepped::Stepped;
use std::hint::spin_loop;
use std::sync::Wait;

/// How often a busy turn is tried again before the seat parks.
const TRIES: u32 = 400;

impl<C: Stepped> SeatLock<C> {
    // Tries to take the turn for a while.
    fn take_soon(&self, seat: &mut SeatOf<C>) -> bool
        requires { (seat.old.table_id ≡ table_of self.now) × (seat.old.me.1 ≡ []) }
        ensures seat { SameSeat seat.old seat.new }
        ensures taken { TakenIf C.Stepped result seat.old.me seat.new.me }
    {
        for _ in 0..TRIES {
            if self.table.shared.peek(1) == 0 {
                if self.try_take(seat) {
                    return true;
                }
            }
            spin_loop();
        }
        false
    }

    // Waits until the turn is free, and takes it.
    pub(crate) fn take<R: Wait>(&self, rt: &R, seat: &mut SeatOf<C>)
        requires { (seat.old.table_id ≡ table_of self.now) × (seat.old.me.1 ≡ []) }
        ensures seat { SameSeat seat.old seat.new }
        ensures taken { Taken C.Stepped seat.old.me seat.new.me }
    {
        if self.take_soon(seat) {
            return;
        }
        for _ in rt.forever() {
            if self.take_or_call(seat) {
                return;
            }
            self.table.shared.park(rt, 1, 2);
        }
        unreachable!()
    }

    // Whether the event is enabled in the value that the seat has.
    fn finds_enabled(&self, seat: &mut SeatOf<C>, place: u32, event: &C::Event) -> bool
        requires seat { seat.old.table_id ≡ table_of self.now }
        requires value { (core : C) × Carries seat.old.me core }
        ensures seat { Becomes seat.old seat.new seat.old.me }
        ensures found { (core : C) → Carries seat.old.me core
            → result ≡ C.is_enabled core place event.now }
    {
        let Some(core) = seat.slot_mut(&self.table.shared, 0) else {
            unreachable!()
        };
        core.enabled(place, event)
    }

    // Parks until the word of changes differs from the mark, which is what it was before the turn was taken.
    fn await_change<R: Wait>(&self, rt: &R, seat: &mut SeatOf<C>, mark: u64)
        requires { seat.old.table_id ≡ table_of self.now }
        ensures { Becomes seat.old seat.new seat.old.me }
    {
        let shared = &self.table.shared;
        let found = shared.fetch_or::<Bump>(seat, 2, 1);
        if found | 1 == mark | 1 {
            shared.park(rt, 2, ((mark | 1) % (1 << 32)) as u32);
        }
    }

    // Waits until the event is enabled, and has taken the turn then.
    pub(crate) fn take_for<R: Wait>(
        &self,
        rt: &R,
        seat: &mut SeatOf<C>,
        place: u32,
        event: &C::Event,
    )
        requires seat { (seat.old.table_id ≡ table_of self.now) × (seat.old.me.1 ≡ []) }
        requires free { seat.old.me.0.notes ≡ None }
        ensures seat { SameSeat seat.old seat.new }
        ensures taken { Taken C.Stepped seat.old.me seat.new.me }
        ensures enabled { (core : C) → Carries seat.new.me core
            → C.is_enabled core place event.now ≡ true }
    {
        for _ in rt.forever() {
            let mark = self.table.shared.peek(2);
            self.take(rt, seat);
            if self.finds_enabled(seat, place, event) {
                return;
            }
            self.put_back(seat);
            self.await_change(rt, seat, mark);
        }
        unreachable!()
    }
}
