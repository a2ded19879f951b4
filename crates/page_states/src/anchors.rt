//! The two anchors of a table: the first two different places of the latest sweep.
ghost use Rattle.std.specs.Prelude.{◌≡◌, ◌<◌, ◌+◌, true, length};
ghost use Rattle.page_states.specs.Sound.{IsAnchorAmong};
ghost use Rattle.page_states.specs.Tables.{AreAnchorsAmong, IsPageTable, KeepsAnchors};

use crate::numbers::{add, number_at, take_out};
use crate::table::Table;
use std::mem;

/// The first of the places, if there is one.
fn first_of(places: &[u64]) -> Option<u64>
    ensures { IsAnchorAmong places.now result }
{
    if places.is_empty() {
        return None;
    }
    Some(places[0])
}

/// The first of the places that is another one than this.
fn other_than(first: Option<u64>, places: &[u64]) -> Option<u64>
    ensures { IsAnchorAmong places.now result }
{
    for place in places {
        let other = !is_same(first, Some(*place));
        if other {
            return Some(*place);
        }
    }
    None
}

/// Whether two places are the same, or both are missing.
fn is_same(left: Option<u64>, right: Option<u64>) -> bool
    ensures { result ≡ true → left ≡ right }
{
    match left {
        Some(place) => match right {
            Some(other) => place == other,
            None => false,
        },
        None => right.is_none(),
    }
}

/// The first anchor becomes the second one, and the second the first.
pub(crate) fn swap_anchors(table: &mut Table)
    requires { IsPageTable table.old }
    ensures table { IsPageTable table.new }
    ensures states { table.new.states.items ≡ table.old.states.items }
    ensures loose { table.new.loose.items ≡ table.old.loose.items }
    ensures first { table.new.first.place ≡ table.old.second.place }
    ensures second { table.new.second.place ≡ table.old.first.place }
    ensures anchors { KeepsAnchors table.old table.new }
{
    mem::swap(&mut table.first, &mut table.second);
}

/// The last page of the first anchor becomes a loose one.
fn loosen_last(table: &mut Table)
    requires table { IsPageTable table.old }
    requires some { 0 < length table.old.first.pages.items }
    ensures table { IsPageTable table.new }
    ensures states { table.new.states.items ≡ table.old.states.items }
    ensures fewer { length table.new.first.pages.items + 1 ≡ length table.old.first.pages.items }
    ensures second { table.new.second.place ≡ table.old.second.place }
{
    let at = table.first.pages.len() - 1;
    let page = number_at(&table.first.pages, at);
    take_out(&mut table.first.pages, at);
    add(&mut table.loose, page);
}

/// The first anchor has no page any more.
fn loosen_all(table: &mut Table)
    requires { IsPageTable table.old }
    ensures table { IsPageTable table.new }
    ensures states { table.new.states.items ≡ table.old.states.items }
    ensures none { length table.new.first.pages.items ≡ 0 }
    ensures second { table.new.second.place ≡ table.old.second.place }
{
    while !table.first.pages.is_empty() {
        loosen_last(table);
    }
}

/// The first anchor is at this place from now on. If it was at another one, its pages become loose.
fn move_first(table: &mut Table, place: Option<u64>)
    requires { IsPageTable table.old }
    ensures table { IsPageTable table.new }
    ensures states { table.new.states.items ≡ table.old.states.items }
    ensures first { table.new.first.place ≡ place }
    ensures second { table.new.second.place ≡ table.old.second.place }
{
    let same = is_same(table.first.place, place);
    if same {
        return;
    }
    loosen_all(table);
    table.first.place = place;
}

/// The second anchor is at this place from now on. If it was at another one, its pages become loose.
fn move_second(table: &mut Table, place: Option<u64>)
    requires { IsPageTable table.old }
    ensures table { IsPageTable table.new }
    ensures states { table.new.states.items ≡ table.old.states.items }
    ensures first { table.new.first.place ≡ table.old.first.place }
    ensures second { table.new.second.place ≡ place }
{
    let same = is_same(table.second.place, place);
    if same {
        return;
    }
    swap_anchors(table);
    move_first(table, place);
    swap_anchors(table);
}

/// Swaps the anchors if that lets one of them stay where it is, when they move to these places.
fn turn_anchors(table: &mut Table, first: Option<u64>, second: Option<u64>)
    requires { IsPageTable table.old }
    ensures table { IsPageTable table.new }
    ensures states { table.new.states.items ≡ table.old.states.items }
{
    let crossed = is_same(table.second.place, first);
    if crossed {
        swap_anchors(table);
        return;
    }
    let crossed = is_same(table.first.place, second);
    if crossed {
        swap_anchors(table);
    }
}

/// The anchors are at the first two different places from now on. One that was at either of them stays there.
pub(crate) fn settle_anchors(table: &mut Table, places: &[u64])
    requires { IsPageTable table.old }
    ensures table { IsPageTable table.new }
    ensures states { table.new.states.items ≡ table.old.states.items }
    ensures among { AreAnchorsAmong places.now table.new.first.place table.new.second.place }
{
    let first = first_of(places);
    let second = other_than(first, places);
    turn_anchors(table, first, second);
    move_first(table, first);
    move_second(table, second);
}
