//! Taking the turn and giving it back, each as single steps on the table.
ghost use Rattle.std.specs.Prelude.{◌≡◌, ◌+◌, ◌^◌, ◌<◌, [], length};
ghost use Rattle.seat_lock.specs.Locks.{table_of};
ghost use Rattle.seat_lock.specs.Plays.{Carries, TakenIf};
ghost use Rattle.seat_lock.specs.Turns.{SameSeat, Becomes, HasTurn, MayPutBack, MayHandOver};
ghost use Rattle.seat_lock.specs.Views.{seat_at, with_more, without_turn};

use crate::lock::SeatLock;
use crate::rule::{Back, Bump, Give, Grow, NewEntries, SeatOf, Take};
use crate::stepped::Stepped;
use std::snapshot::Snapshot;

impl<C: Stepped> SeatLock<C> {
    // Takes the turn where it is free.
    pub(crate) fn try_take(&self, seat: &mut SeatOf<C>) -> bool
        requires { (seat.old.table_id ≡ table_of self.now) × (seat.old.me.1 ≡ []) }
        ensures seat { SameSeat seat.old seat.new }
        ensures taken { TakenIf C.Stepped result seat.old.me seat.new.me }
    {
        self.table.shared.compare_exchange::<Take>(seat, 1, 0, 1) == 0
    }

    // The same, and where the turn is not free its word tells that a seat waits for it.
    pub(crate) fn take_or_call(&self, seat: &mut SeatOf<C>) -> bool
        requires { (seat.old.table_id ≡ table_of self.now) × (seat.old.me.1 ≡ []) }
        ensures seat { SameSeat seat.old seat.new }
        ensures taken { TakenIf C.Stepped result seat.old.me seat.new.me }
    {
        self.table.shared.swap::<Take>(seat, 1, 2) == 0
    }

    // The turn's word was this as it was given back. A seat that may have parked on it is woken.
    fn wake(&self, found: u64) {
        if found == 2 {
            self.table.shared.wake_one(1);
        }
    }

    // The value goes home as it was taken.
    pub(crate) fn put_back(&self, seat: &mut SeatOf<C>)
        requires seat { seat.old.table_id ≡ table_of self.now }
        requires value { MayPutBack C.Stepped seat.old.me }
        ensures { Becomes seat.old seat.new (without_turn seat.old.me.0 seat.old.me.0.seat, []) }
    {
        let found = self.table.shared.swap::<Back>(seat, 1, 0);
        self.wake(found);
    }

    // The value goes home changed, and the seat's part becomes the value's. Seats that may have parked until it changes are woken.
    pub(crate) fn hand_over(&self, seat: &mut SeatOf<C>, place: u32)
        requires seat { seat.old.table_id ≡ table_of self.now }
        requires value { MayHandOver C.Stepped seat.old.me place }
        ensures seat { SameSeat seat.old seat.new }
        ensures given { (core : C) → Carries seat.old.me core → seat.new.me
            ≡ (without_turn seat.old.me.0 (seat_at place (C.part_at core place)), []) }
    {
        let found = self.table.shared.swap::<Give<C>>(seat, 1, 0);
        self.wake(found);
        self.bump(seat);
    }

    // The word of changes becomes another. Seats that may have parked on it are woken.
    fn bump(&self, seat: &mut SeatOf<C>)
        requires { seat.old.table_id ≡ table_of self.now }
        ensures { Becomes seat.old seat.new seat.old.me }
    {
        let shared = &self.table.shared;
        if shared.fetch_add::<Bump>(seat, 2, 2) % 2 == 1 {
            shared.fetch_and::<Bump>(seat, 2, u64::MAX - 1);
            shared.wake_all(2);
        }
    }

    // The seat with the turn adds the entries that an event appended to the value as it was before, if there are any.
    pub(crate) fn add<J: NewEntries<C::Entry>>(
        &self,
        seat: &mut SeatOf<C>,
        count: u64,
        before: &Snapshot<C>,
        place: u32,
        event: &Snapshot<C::Event>,
    )
        requires seat { seat.old.table_id ≡ table_of self.now }
        requires turn { HasTurn seat.old.me.0 }
        requires entries { J.entries ≡ C.appended before.now.value place event.now.value }
        requires count { count ≡ length J.entries }
        requires room { seat.old.me.0.from + length seat.old.me.0.seen + count < 2 ^ 64 }
        ensures { Becomes seat.old seat.new (with_more seat.old.me.0 J.entries, seat.old.me.1) }
    {
        if count > 0 {
            self.table.shared.fetch_add::<Grow<J>>(seat, 0, count);
        }
    }
}
