//! What the states say of an owner and of a seat.
ghost use Rattle.std.specs.Prelude.{◌≡◌, ◌<◌, ◌≤◌, ◌^◌, ℕ, length, true, false, Some, None, IfSome, IfNone, slice_get};
ghost use Rattle.std.specs.List.{count_by, list_any};
ghost use Rattle.page_states.specs.declared.page_state.PageState.{PageState};
ghost use Rattle.page_states.specs.declared.page_state.PageState.TheVariants.{Live};
ghost use Rattle.page_states.specs.States.{is_free, is_claimed_by, is_replaced, number_of, shows};
ghost use Rattle.page_states.specs.Effects.{IsPageAt, ShowsNone, ShowedNone, BeganBeyond, NoneFrom};
ghost use Rattle.page_states.specs.Sound.{ShowedNoneOf};
ghost use Rattle.page_states.specs.Tables.{IsPageTable, NoneAnchoredAt};

use crate::PageState;
use crate::anchor::anchored_page_at;
use crate::numbers::number_at;
use crate::page_state::shows;
use crate::publishing::current_page;
use crate::table::{Table, state_at};
use grid_types::Owner;

/// How many pages are free.
pub(crate) fn free_count(table: &Table) -> u32
    requires { IsPageTable table.now }
    ensures { result ≡ count_by is_free table.now.states.items }
{
    table.free as u32
}

/// The current page of an owner, if it began at the place or before.
fn newest_page_at(table: &Table, owner: Owner, place: u64) -> Option<u32>
    requires table { IsPageTable table.now }
    requires known { number_of owner < length table.now.states.items }
    ensures found { IfSome result (λ p. IsPageAt owner place table.now.states.items p) }
    ensures none { IfNone result (BeganBeyond owner place table.now.states.items) }
{
    let Some(found) = current_page(table, owner) else {
        return None;
    };
    let with_current = found.1 <= place;
    if with_current {
        return Some(found.0);
    }
    None
}

/// The page of these that is an owner's at the place. It begins with the last of them, which mostly was replaced last.
fn shown_in(states: &Vec<PageState>, list: &Vec<u32>, owner: Owner, place: u64) -> Option<u32>
    ensures found { IfSome result (λ p. IsPageAt owner place states.now.items p) }
    ensures none { IfNone result (ShowedNoneOf owner place states.now.items list.now.items) }
{
    let mut at = list.len();
    while at > 0 {
        at -= 1;
        let page = number_at(list, at);
        if let Some(state) = state_at(states, page) {
            let shown = shows(owner, place, state);
            if shown {
                return Some(page);
            }
        }
    }
    None
}

/// A page of the anchors that was an owner's at the place.
fn anchored_at(table: &Table, owner: Owner, place: u64) -> Option<u32>
    requires table { IsPageTable table.now }
    requires known { number_of owner < length table.now.states.items }
    ensures found { IfSome result (λ p. IsPageAt owner place table.now.states.items p) }
    ensures none { IfNone result (NoneAnchoredAt owner place table.now) }
{
    if let Some(page) = anchored_page_at(&table.states, &table.first, owner, place) {
        return Some(page);
    }
    if let Some(page) = anchored_page_at(&table.states, &table.second, owner, place) {
        return Some(page);
    }
    None
}

/// A replaced page of an owner that was current at the place.
fn old_page_at(table: &Table, owner: Owner, place: u64) -> Option<u32>
    requires table { IsPageTable table.now }
    requires known { number_of owner < length table.now.states.items }
    ensures found { IfSome result (λ p. IsPageAt owner place table.now.states.items p) }
    ensures none { IfNone result (ShowedNone owner place table.now.states.items) }
{
    if let Some(page) = anchored_at(table, owner, place) {
        return Some(page);
    }
    if let Some(page) = shown_in(&table.states, &table.loose, owner, place) {
        return Some(page);
    }
    None
}

/// The page of an owner that is or was current at the place.
pub(crate) fn page_of(table: &Table, owner: Owner, place: u64) -> Option<u32>
    requires table { IsPageTable table.now }
    requires known { number_of owner < length table.now.states.items }
    ensures found { IfSome result (λ p. IsPageAt owner place table.now.states.items p) }
    ensures none { IfNone result (ShowsNone owner place table.now.states.items) }
{
    if let Some(page) = newest_page_at(table, owner, place) {
        return Some(page);
    }
    old_page_at(table, owner, place)
}

/// Whether a seat has a claimed page.
pub(crate) fn has_claims(table: &Table, seat: u32) -> bool
    requires { IsPageTable table.now }
    ensures { result ≡ list_any (is_claimed_by seat) table.now.states.items }
{
    for at in 0..table.claimed.len() {
        let page = number_at(&table.claimed, at);
        if let Some(PageState::Claimed { seat: other }) = state_at(&table.states, page) {
            if other == seat {
                return true;
            }
        }
    }
    false
}
