//! Replaced pages that nobody needs become free.
ghost use Rattle.std.specs.Prelude.{◌≡◌, ◌≤◌, ◌<◌, ◌+◌, true, false, length};
ghost use Rattle.page_states.specs.Effects.{is_gone, swept};
ghost use Rattle.page_states.specs.Sound.{HasPageAt, without_index};
ghost use Rattle.page_states.specs.Tables.{AreSweptAlike, IsLooseFreed, IsPageTable, KeepsAnchors, NoneLooseFrom, loose_page};

use crate::PageState;
use crate::anchor::{can_hold, is_held};
use crate::anchors::{settle_anchors, swap_anchors};
use crate::numbers::{add, number_at, take_out};
use crate::page_state::is_kept;
use crate::slot::slot_of;
use crate::table::{Table, make_free, state_at};

/// The loose page at an index becomes the first anchor's, if it is current there and no other page of its owner is. One
/// that cannot be written down stays loose, which costs time alone.
fn hold_by_first(table: &mut Table, at: usize) -> bool
    requires table { IsPageTable table.old }
    requires inside { at < length table.old.loose.items }
    ensures table { IsPageTable table.new }
    ensures states { table.new.states.items ≡ table.old.states.items }
    ensures held { result ≡ true → table.new.loose.items ≡ without_index table.old.loose.items at }
    ensures other { result ≡ false → table.new.loose.items ≡ table.old.loose.items }
    ensures anchors { KeepsAnchors table.old table.new }
{
    let Some(place) = table.first.place else {
        return false;
    };
    let page = number_at(&table.loose, at);
    let Some(
        PageState::Live {
            owner,
            from: _,
            to: _,
        },
    ) = state_at(&table.states, page)
    else {
        return false;
    };
    let can = can_hold(&table.states, &table.first.by_owner, owner, place, page);
    if can {
        take_out(&mut table.loose, at);
        add(&mut table.first.pages, page);
        table.first.by_owner[slot_of(owner)] = Some(page);
    }
    can
}

/// The loose page at an index becomes the second anchor's, if it is current there and no other page of its owner is.
fn hold_by_second(table: &mut Table, at: usize) -> bool
    requires table { IsPageTable table.old }
    requires inside { at < length table.old.loose.items }
    ensures table { IsPageTable table.new }
    ensures states { table.new.states.items ≡ table.old.states.items }
    ensures held { result ≡ true → table.new.loose.items ≡ without_index table.old.loose.items at }
    ensures other { result ≡ false → table.new.loose.items ≡ table.old.loose.items }
    ensures anchors { KeepsAnchors table.old table.new }
{
    swap_anchors(table);
    let held = hold_by_first(table, at);
    swap_anchors(table);
    held
}

/// The loose page at an index becomes an anchor's, if it is current there and no other page of its owner is.
fn hold_page(table: &mut Table, at: usize, state: PageState) -> bool
    requires table { IsPageTable table.old }
    requires inside { at < length table.old.loose.items }
    ensures table { IsPageTable table.new }
    ensures states { table.new.states.items ≡ table.old.states.items }
    ensures held { result ≡ true → table.new.loose.items ≡ without_index table.old.loose.items at }
    ensures other { result ≡ false → table.new.loose.items ≡ table.old.loose.items }
    ensures anchors { KeepsAnchors table.old table.new }
{
    let by_first = is_held(table.first.place, state);
    if by_first {
        return hold_by_first(table, at);
    }
    let by_second = is_held(table.second.place, state);
    if by_second {
        return hold_by_second(table, at);
    }
    false
}

/// The loose page at an index is free.
fn free_page(table: &mut Table, at: usize)
    requires table { IsPageTable table.old }
    requires inside { at < length table.old.loose.items }
    requires there { HasPageAt table.old.states.items (loose_page table.old at) }
    ensures table { IsPageTable table.new }
    ensures states { IsLooseFreed table.old at table.new }
    ensures loose { table.new.loose.items ≡ without_index table.old.loose.items at }
    ensures anchors { KeepsAnchors table.old table.new }
{
    let page = number_at(&table.loose, at);
    take_out(&mut table.loose, at);
    make_free(&mut table.states, &mut table.hints, &mut table.low, page);
    table.free += 1;
}

/// The loose page at an index becomes an anchor's if it is current there, and free if it is current at none of the
/// places.
fn sweep_at(table: &mut Table, places: &[u64], at: usize)
    requires table { IsPageTable table.old }
    requires inside { at < length table.old.loose.items }
    requires above { NoneLooseFrom (is_gone places.now) table.old (at + 1) }
    ensures table { IsPageTable table.new }
    ensures states { AreSweptAlike places.now table.old table.new }
    ensures above { NoneLooseFrom (is_gone places.now) table.new at }
    ensures left { at ≤ length table.new.loose.items }
    ensures anchors { KeepsAnchors table.old table.new }
{
    let page = number_at(&table.loose, at);
    let Some(state) = state_at(&table.states, page) else {
        return;
    };
    let held = hold_page(table, at, state);
    if held {
        return;
    }
    let kept = is_kept(places, state);
    if kept {
        return;
    }
    free_page(table, at);
}

/// Each replaced page that is current at none of the places is free.
pub(crate) fn sweep_all(table: &mut Table, places: &[u64])
    requires { IsPageTable table.old }
    ensures table { IsPageTable table.new }
    ensures states { table.new.states.items ≡ swept places.now table.old.states.items }
{
    settle_anchors(table, places);
    let mut at = table.loose.len();
    while at > 0 {
        at -= 1;
        sweep_at(table, places, at);
    }
}
