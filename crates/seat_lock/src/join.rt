//! A join of the value, which takes the place of another chair back.
ghost use Rattle.std.specs.Prelude.{◌≡◌, Some};
ghost use Rattle.seat_lock.specs.Chairs.{view_of, HasPlace};
ghost use Rattle.seat_lock.specs.Locks.{table_of};
ghost use Rattle.seat_lock.specs.Outcomes.{MayEnd, MayEndAt, TakenBack};
ghost use Rattle.seat_lock.specs.Turns.{IsBetweenCalls, SameSeat, Becomes, HasGuest};
ghost use Rattle.seat_lock.specs.Views.{with_guest, without_guest};

use crate::chair::Chair;
use crate::lock::SeatLock;
use crate::rule::{Release, SeatOf, Starts, TakeIn};
use crate::stepped::Stepped;
use atomic_table::Badge;
use std::marker::Brand;
use std::mem;
use std::sync::Wait;

impl<C: Stepped> SeatLock<C> {
    // The seat is told of what the other has seen, which is spent, and takes in its place, if it has one, as its guest's.
    pub(crate) fn absorb<J: Starts>(&self, seat: &mut SeatOf<C>, other: SeatOf<C>)
        requires seat { (seat.old.table_id ≡ table_of self.now) × IsBetweenCalls seat.old.me }
        requires other { (other.table_id ≡ table_of self.now) × IsBetweenCalls other.me }
        requires front { J.front ≡ seat.old.me.0.from }
        ensures { Becomes seat.old seat.new (with_guest seat.old.me.0 other.me.0, seat.old.me.1) }
    {
        self.table.shared.join_seat::<TakeIn<J>>(seat, other);
    }

    // The seat with the turn gives its guest's place up.
    fn release(&self, seat: &mut SeatOf<C>)
        requires seat { seat.old.table_id ≡ table_of self.now }
        requires guest { HasGuest seat.old.me.0 }
        ensures { Becomes seat.old seat.new (without_guest seat.old.me.0, seat.old.me.1) }
    {
        self.table.shared.load::<Release>(seat, 0);
    }

    // Takes the other in, waits for the turn, makes the join in the value where it lies, and gives the turn back.
    fn join_at<R: Wait>(
        &self,
        rt: &R,
        seat: &mut SeatOf<C>,
        place: u32,
        other: SeatOf<C>,
        other_place: u32,
    )
        requires seat { (seat.old.table_id ≡ table_of self.now) × IsBetweenCalls seat.old.me }
        requires other { (other.table_id ≡ table_of self.now) × IsBetweenCalls other.me }
        requires place { (x : C.Part) × (seat.old.me.0.seat ≡ Some (place, x)) }
        requires ends { MayEndAt C.Stepped other.me.0 other_place }
        ensures seat { SameSeat seat.old seat.new }
        ensures rests { IsBetweenCalls seat.new.me }
        ensures joined { TakenBack C.Stepped seat.old.me.0 seat.new.me.0 other.me.0 }
    {
        self.absorb::<Brand>(seat, other);
        self.take(rt, seat);
        let Some(core) = seat.slot_mut(&self.table.shared, 0) else {
            unreachable!()
        };
        core.join(place, other_place);
        self.release(seat);
        self.hand_over(seat, place);
    }

    /// Takes the place of the other chair back, which is idle, and sees what that had seen.
    pub fn join<R: Wait>(
        &self,
        rt: &R,
        chair: &mut Chair<C::Entry, C::Part>,
        other: Chair<C::Entry, C::Part>,
    )
        requires own { chair.old.table_id ≡ table_of self.now }
        requires own_other { other.table_id ≡ table_of self.now }
        requires place { HasPlace chair.old }
        requires ends { MayEnd C.Stepped (view_of other) }
        ensures own { chair.new.table_id ≡ chair.old.table_id }
        ensures joined { TakenBack C.Stepped
            (view_of chair.old) (view_of chair.new) (view_of other) }
    {
        let Some(place) = chair.place else {
            unreachable!()
        };
        let Chair {
            badge: given,
            place: given_place,
        } = other;
        let Some(other_place) = given_place else {
            unreachable!()
        };
        let badge = mem::replace(&mut chair.badge, Badge::blank());
        let mut seat = badge.into_seat::<Option<C>>();
        let guest = given.into_seat::<Option<C>>();
        self.join_at(rt, &mut seat, place, guest, other_place);
        chair.badge = seat.into_badge();
    }
}
