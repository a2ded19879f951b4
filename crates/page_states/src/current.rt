//! The table of current pages.
ghost use Rattle.std.specs.Prelude.{◌≡◌, ◌<◌, ◌≤◌, ℕ, length};
ghost use Rattle.grid_types.specs.declared.owner.Owner.TheVariants.{Bucket, Part};
ghost use Rattle.page_states.specs.Effects.{IsCurrentFrom, HasNoPage};
ghost use Rattle.page_states.specs.States.{number_of};
ghost use Rattle.page_states.specs.Current.{TellsPages};
ghost use Rattle.page_states.specs.Tables.{IsPageTable};

use crate::publishing::current_page;
use crate::table::Table;
use grid_types::Owner;

/// The current page of an owner, or the number that stands for none.
fn page_or(table: &Table, owner: Owner, nowhere: u32) -> u32
    requires table { IsPageTable table.now }
    requires known { number_of owner < length table.now.states.items }
    ensures page { (p from : ℕ) → IsCurrentFrom owner table.now.states.items p from → result ≡ p }
    ensures other { HasNoPage owner table.now.states.items → result ≡ nowhere }
{
    let Some(found) = current_page(table, owner) else {
        return nowhere;
    };
    found.0
}

/// At each number the current page of the bucket of that number, or the number that stands for none.
pub(crate) fn tell_buckets(table: &Table, nowhere: u32, out: &mut [u32])
    requires table { IsPageTable table.now }
    requires known { length out.old ≤ length table.now.states.items }
    ensures told { TellsPages Bucket nowhere table.now.states.items out.new (length out.new) }
    ensures length { length out.new ≡ length out.old }
{
    for n in 0..out.len() {
        let page = page_or(table, Owner::Bucket(n as u32), nowhere);
        out[n] = page;
    }
}

/// At each number the current page of the part of that number, or the number that stands for none.
pub(crate) fn tell_parts(table: &Table, nowhere: u32, out: &mut [u32])
    requires table { IsPageTable table.now }
    requires known { length out.old ≤ length table.now.states.items }
    ensures told { TellsPages Part nowhere table.now.states.items out.new (length out.new) }
    ensures length { length out.new ≡ length out.old }
{
    for n in 0..out.len() {
        let page = page_or(table, Owner::Part(n as u32), nowhere);
        out[n] = page;
    }
}
