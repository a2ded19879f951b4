//! A claimed page becomes its owner's current one.
ghost use Rattle.std.specs.Prelude.{◌≡◌, ◌<◌, ◌*◌, ℕ, length, map, Some, None, IfSome, IfNone, slice_get, slice_set};
ghost use Rattle.page_states.specs.declared.page_state.PageState.TheVariants.{Free, Claimed, Live};
ghost use Rattle.page_states.specs.States.{number_of};
ghost use Rattle.page_states.specs.Effects.{with_current, vanished, with_newest, IsClaimed, IsCurrentFrom, HasNoPage};
ghost use Rattle.page_states.specs.Tables.{IsPageTable};

use crate::PageState;
use crate::claiming::claim_page;
use crate::numbers::{add, index_of, take_out};
use crate::slot::slot_of;
use crate::table::Table;
use grid_types::Owner;

/// The current page of an owner, and the place where it began.
pub(crate) fn current_page(table: &Table, owner: Owner) -> Option<(u32, u64)>
    requires table { IsPageTable table.now }
    requires known { number_of owner < length table.now.states.items }
    ensures found { IfSome result (λ r. IsCurrentFrom owner table.now.states.items r.0 r.1) }
    ensures none { IfNone result (HasNoPage owner table.now.states.items) }
{
    let Some(page) = table.newest[slot_of(owner)] else {
        return None;
    };
    match table.states.get(page as usize) {
        Some(
            PageState::Live {
                owner: other,
                from,
                to: None,
            },
        ) => {
            if other.is(owner) {
                return Some((page, *from));
            }
            None
        }
        _ => None,
    }
}

/// The current page of an owner is replaced at a place.
pub(crate) fn end_page(table: &mut Table, owner: Owner, at: u64)
    requires table { IsPageTable table.old }
    requires known { number_of owner < length table.old.states.items }
    ensures table { IsPageTable table.new }
    ensures states { table.new.states.items ≡ vanished owner at table.old.states.items }
{
    let Some(found) = current_page(table, owner) else {
        return;
    };
    table.states[found.0 as usize] = PageState::Live {
        owner,
        from: found.1,
        to: Some(at),
    };
    add(&mut table.loose, found.0);
}

/// A claimed page becomes the current one of an owner who has none.
fn begin_page(table: &mut Table, page: u32, owner: Owner, at: u64)
    requires table { IsPageTable table.old }
    requires known { number_of owner < length table.old.states.items }
    requires claimed { IsClaimed table.old.states.items page }
    requires alone { HasNoPage owner table.old.states.items }
    ensures table { IsPageTable table.new }
    ensures states { table.new.states.items ≡ with_current page owner at table.old.states.items }
{
    let index = index_of(&table.claimed, page);
    take_out(&mut table.claimed, index);
    table.states[page as usize] = PageState::Live {
        owner,
        from: at,
        to: None,
    };
    table.newest[slot_of(owner)] = Some(page);
}

/// A claimed page becomes the owner's current one, and the owner's page of before is replaced.
pub(crate) fn publish_page(table: &mut Table, page: u32, owner: Owner, at: u64)
    requires table { IsPageTable table.old }
    requires known { number_of owner < length table.old.states.items }
    requires claimed { IsClaimed table.old.states.items page }
    ensures table { IsPageTable table.new }
    ensures states { table.new.states.items ≡ with_newest page owner at table.old.states.items }
{
    end_page(table, owner, at);
    begin_page(table, page, owner, at);
}

/// A free page becomes the owner's current one, and the owner's page of before, if there is one, is replaced.
pub(crate) fn begin_free_page(table: &mut Table, page: u32, owner: Owner, at: u64)
    requires table { IsPageTable table.old }
    requires known { number_of owner < length table.old.states.items }
    requires free { slice_get table.old.states.items page ≡ Some Free }
    ensures table { IsPageTable table.new }
    ensures states { table.new.states.items ≡ with_newest page owner at table.old.states.items }
{
    claim_page(table, 0, page);
    publish_page(table, page, owner, at);
}
