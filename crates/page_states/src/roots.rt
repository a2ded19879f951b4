//! Whether pages wait for a root alone.
ghost use Rattle.std.specs.Prelude.{◌≡◌, ◌<◌, ◌&&◌, ℕ, not, true, false, length, Some, slice_get, slice_index};
ghost use Rattle.std.specs.List.{list_any};
ghost use Rattle.page_states.specs.declared.page_state.PageState.{PageState};
ghost use Rattle.page_states.specs.States.{is_kept, is_replaced};
ghost use Rattle.page_states.specs.Effects.{is_of_roots, HasRootsPage, HasNoneOf};
ghost use Rattle.page_states.specs.Sound.{AreListedReplaced};
ghost use Rattle.page_states.specs.Tables.{IsPageTable};

use crate::PageState;
use crate::numbers::number_at;
use crate::page_state::is_kept;
use crate::table::{Table, state_at};

/// Whether a page is current at one of the roots' places and at none of the pins.
fn is_only_of(roots: &[u64], pins: &[u64], state: PageState) -> bool
    ensures { result ≡ (is_kept roots.now state && not (is_kept pins.now state)) }
{
    if is_kept(roots, state) {
        return !is_kept(pins, state);
    }
    false
}

/// Whether one of these replaced pages is current at a root's place and at none of the pins.
fn has_one_of(states: &Vec<PageState>, list: &Vec<u32>, pins: &[u64], roots: &[u64]) -> bool
    requires { AreListedReplaced states.now.items list.now.items }
    ensures found { result ≡ true → HasRootsPage pins.now roots.now states.now.items }
    ensures none { result ≡ false → HasNoneOf pins.now roots.now states.now.items list.now.items }
{
    for at in 0..list.len() {
        let page = number_at(list, at);
        if let Some(state) = state_at(states, page) {
            let found = is_only_of(roots, pins, state);
            if found {
                return true;
            }
        }
    }
    false
}

/// Whether a replaced page is current at a root's place and at none of the pins.
pub(crate) fn has_roots_page(table: &Table, pins: &[u64], roots: &[u64]) -> bool
    requires { IsPageTable table.now }
    ensures { result ≡ list_any (is_of_roots pins.now roots.now) table.now.states.items }
{
    let in_loose = has_one_of(&table.states, &table.loose, pins, roots);
    if in_loose {
        return true;
    }
    let in_first = has_one_of(&table.states, &table.first.pages, pins, roots);
    if in_first {
        return true;
    }
    let in_second = has_one_of(&table.states, &table.second.pages, pins, roots);
    if in_second {
        return true;
    }
    false
}
