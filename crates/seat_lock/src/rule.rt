//! The rule of the lock's table, and what each atomic step on it tells.
//!
//! Word 0 counts the history. Word 1 is the turn: 0 while it is free, 1 while a seat has it, and 2 while another may have parked
//! until it is given back. Word 2 changes after each change of the value, and seats whose event is not enabled park on it. The slot
//! has the value.
ghost use Rattle.std.specs.Prelude.{ℕ, List, [], Option, None};
ghost use Rattle.seat_lock.specs.Rule.{Ruled};
ghost use Rattle.seat_lock.specs.Plays.{Takes, Grows, Gives, GivesBack, Stays, Looks, Releases};
ghost use Rattle.seat_lock.specs.Views.{first_view, resting_view, seat_at};
ghost use Rattle.seat_lock.specs.Views.{with_note, with_guest};

use crate::stepped::Stepped;
use crate::view::View;
use atomic_table::{Join, Play, Seat, Split, Table, TableRule};
use std::alloc::Global;
use std::marker::{Brand, PhantomData};
use std::snapshot::Snapshot;

/// The rule of the table, as `specs/Rule.antt` has it. Its key is the value at the opening.
pub struct Law<C> {
    of: PhantomData<C>,
}

impl<C: Stepped> TableRule<Option<C>, View<C::Entry, C::Part>, Snapshot<C>> for Law<C> {
    ghost holds = { λ key. Ruled C.Stepped (C.front_is key.value) };

    ghost first = { λ key. first_view (C.front_is key.value) (C.part_at key.value 0) };
}

/// The table of a lock.
pub type Board<C> = Table<
    Option<C>,
    View<<C as Stepped>::Entry, <C as Stepped>::Part>,
    Snapshot<C>,
    Law<C>,
    Global,
>;

/// A seat at it.
pub type SeatOf<C> = Seat<Option<C>, View<<C as Stepped>::Entry, <C as Stepped>::Part>>;

/// A try to take the turn, and the value with it.
pub(crate) struct Take;

impl<C: Stepped> Play<Option<C>, View<C::Entry, C::Part>> for Take {
    ghost then = { Takes C.Stepped };
}

/// Entries that a step adds, as its caller picks them.
pub trait NewEntries<E> {
    ghost entries: { List E };
}

impl<E> NewEntries<E> for Brand {
    ghost entries = { [] };
}

/// The seat with the turn adds entries to the history.
pub(crate) struct Grow<J> {
    of: PhantomData<J>,
}

impl<C: Stepped, J: NewEntries<C::Entry>> Play<Option<C>, View<C::Entry, C::Part>> for Grow<J> {
    ghost then = { Grows J.entries };
}

/// The value goes home, and the seat's part becomes the value's.
pub(crate) struct Give<C> {
    of: PhantomData<C>,
}

impl<C: Stepped> Play<Option<C>, View<C::Entry, C::Part>> for Give<C> {
    ghost then = { Gives C.Stepped };
}

/// The value goes home unchanged.
pub(crate) struct Back;

impl<C, E, P> Play<Option<C>, View<E, P>> for Back {
    ghost then = { GivesBack };
}

/// The word that seats without an enabled event park on changes.
pub(crate) struct Bump;

impl<C, E, P> Play<Option<C>, View<E, P>> for Bump {
    ghost then = { Stays };
}

/// A look at the whole history.
pub(crate) struct Look;

impl<C, E, P> Play<Option<C>, View<E, P>> for Look {
    ghost then = { Looks };
}

/// The guest's place is given up.
pub(crate) struct Release;

impl<C, E, P> Play<Option<C>, View<E, P>> for Release {
    ghost then = { Releases };
}

/// A view for another seat, which has seen as much and has no place.
pub(crate) struct Note;

impl<E, P> Split<View<E, P>> for Note {
    ghost left = { λ v. v };

    ghost right = { λ v. resting_view v.from v.seen None };
}

/// A place and the part that goes with it, as their giver picks them.
pub trait Grants<P> {
    ghost place: { ℕ };

    ghost given: { Option P };
}

impl<P> Grants<P> for Brand {
    ghost place = { 0 };

    ghost given = { None };
}

/// The seat with the turn gives a place away.
pub(crate) struct Cut<J> {
    of: PhantomData<J>,
}

impl<E, P, J: Grants<P>> Split<View<E, P>> for Cut<J> {
    ghost left = { with_note J.place J.given };

    ghost right = { λ v. resting_view v.from v.seen (seat_at J.place J.given) };
}

/// The front at the opening, as a seat picks it that takes another in.
pub trait Starts {
    ghost front: { ℕ };
}

impl Starts for Brand {
    ghost front = { 0 };
}

/// The seat is told of what another has seen, and takes in its place.
pub(crate) struct TakeIn<J> {
    of: PhantomData<J>,
}

impl<E, P, J: Starts> Join<View<E, P>> for TakeIn<J> {
    ghost both = { with_guest };

    ghost spent = { resting_view J.front [] None };
}
