//! An anchor: a kept place, with the replaced pages that are current there.
ghost use Rattle.std.specs.Prelude.{◌≡◌, ◌≤◌, ◌<◌, ◌*◌, ℕ, true, false, length, Some, IfOk, IfSome, IfNone, slice_get};
ghost use Rattle.page_states.specs.States.{is_current_at, number_of, shows};
ghost use Rattle.grid_types.specs.declared.sizes.TheConstants.{MOST_PAGES};
ghost use Rattle.page_states.specs.Effects.{IsPageAt, IsNotShown};
ghost use Rattle.page_states.specs.Sound.{is_held, CanHold, HasRoomFor};
ghost use Rattle.page_states.specs.Tables.{AnchorShowsNone, IsAnchor, IsNewAnchor};

use crate::PageState;
use crate::page_state::{is_current_at, shows};
use crate::slot::slot_of;
use crate::table::{no_pages, state_at};
use grid_types::Owner;
use std::alloc::{AllocError, Global};

/// A place that is swept again and again, with the replaced pages that are current there, which need not be looked at.
#[derive(Drop)]
pub(crate) struct Anchor {
    pub(crate) place: Option<u64>,
    /// Replaced pages that are current at the place, in no order.
    pub(crate) pages: Vec<u32>,
    /// At the slot of an owner of these pages its page. What else stands here is of former times, and tells nothing.
    pub(crate) by_owner: Vec<Option<u32>>,
}

impl Anchor {
    /// An anchor without a place, with room for that many pages.
    pub(crate) fn new(alloc: Global, pages: usize) -> Result<Anchor, AllocError>
        requires { pages ≤ MOST_PAGES }
        ensures { IfOk result (λ a. IsNewAnchor pages a) }
    {
        let list = Vec::with_capacity(alloc, pages)?;
        let by_owner = no_pages(alloc, 2 * pages)?;
        Ok(Anchor {
            place: None,
            pages: list,
            by_owner,
        })
    }
}

/// Whether a page is current at the anchor's place.
pub(crate) fn is_held(place: Option<u64>, state: PageState) -> bool
    ensures { result ≡ is_held place state }
{
    match place {
        Some(place) => is_current_at(place, state),
        None => false,
    }
}

/// Whether a page is the owner's at a place.
fn is_shown(states: &Vec<PageState>, owner: Owner, place: u64, page: u32) -> bool
    ensures yes { result ≡ true → IsPageAt owner place states.now.items page }
    ensures no { result ≡ false → IsNotShown owner place states.now.items page }
{
    match state_at(states, page) {
        Some(state) => shows(owner, place, state),
        None => false,
    }
}

/// Whether a page can be written down at its owner's slot: no other one is there that is the owner's at the anchor's
/// place.
fn has_room_for(
    states: &Vec<PageState>,
    by_owner: &Vec<Option<u32>>,
    owner: Owner,
    place: u64,
    page: u32,
) -> bool
    ensures { result ≡ true → HasRoomFor owner place states.now.items by_owner.now.items page }
{
    let slot = slot_of(owner);
    if slot >= by_owner.len() {
        return false;
    }
    let Some(other) = by_owner[slot] else {
        return true;
    };
    if other == page {
        return true;
    }
    !is_shown(states, owner, place, other)
}

/// Whether a page can be the anchor's: it is its owner's at the anchor's place, and can be written down at the owner's
/// slot.
pub(crate) fn can_hold(
    states: &Vec<PageState>,
    by_owner: &Vec<Option<u32>>,
    owner: Owner,
    place: u64,
    page: u32,
) -> bool
    ensures { result ≡ true → CanHold owner place states.now.items by_owner.now.items page }
{
    let shown = is_shown(states, owner, place, page);
    if shown {
        return has_room_for(states, by_owner, owner, place, page);
    }
    false
}

/// The one of the anchor's pages that was an owner's at a place.
pub(crate) fn anchored_page_at(
    states: &Vec<PageState>,
    anchor: &Anchor,
    owner: Owner,
    place: u64,
) -> Option<u32>
    requires anchor { IsAnchor states.now.items anchor.now }
    requires known { number_of owner < length states.now.items }
    ensures found { IfSome result (λ p. IsPageAt owner place states.now.items p) }
    ensures none { IfNone result (AnchorShowsNone owner place states.now.items anchor.now) }
{
    let Some(page) = anchor.by_owner[slot_of(owner)] else {
        return None;
    };
    let shown = is_shown(states, owner, place, page);
    if shown {
        return Some(page);
    }
    None
}
