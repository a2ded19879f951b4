//! The state of a page.
ghost use Rattle.std.specs.Prelude.{◌≡◌};
ghost use Rattle.page_states.specs.States.{is_current_at, shows, is_kept};

use grid_types::Owner;

/// A page has nothing, is claimed by a seat, or is its owner's from a place on, and up to another one if it was
/// replaced.
#[derive(Clone, Copy, Debug)]
pub enum PageState {
    Free,
    Claimed {
        seat: u32,
    },
    Live {
        owner: Owner,
        from: u64,
        to: Option<u64>,
    },
}

/// Whether a page is current at a place.
pub(crate) fn is_current_at(place: u64, state: PageState) -> bool
    ensures { result ≡ is_current_at place state }
{
    match state {
        PageState::Free => false,
        PageState::Claimed { seat: _ } => false,
        PageState::Live {
            owner: _,
            from,
            to: None,
        } => from <= place,
        PageState::Live {
            owner: _,
            from,
            to: Some(to),
        } => { if from <= place { place < to } else { false } }
    }
}

/// Whether a page is the owner's at a place.
pub(crate) fn shows(owner: Owner, place: u64, state: PageState) -> bool
    ensures { result ≡ shows owner place state }
{
    match state {
        PageState::Free => false,
        PageState::Claimed { seat: _ } => false,
        PageState::Live {
            owner: other,
            from: _,
            to: _,
        } => {
            if other.is(owner) {
                is_current_at(place, state)
            } else {
                false
            }
        }
    }
}

/// Whether a page is current at one of the places.
pub(crate) fn is_kept(places: &[u64], state: PageState) -> bool
    ensures { result ≡ is_kept places.now state }
{
    for place in places {
        if is_current_at(*place, state) {
            return true;
        }
    }
    false
}
