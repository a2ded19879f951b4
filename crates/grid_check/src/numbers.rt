//! The bucket numbers of a table.
ghost use Rattle.std.specs.Prelude.{◌↔◌, IsTrue};
ghost use Rattle.grid_check.specs.Rules.{IsNumbered};

use grid_types::PageList;
use linear_scales::NOWHERE;

/// Whether a bucket has the number.
#[tactic(auto, unfolding(grid_model::specs::Lawful::nowhere))]
pub fn is_numbered(table: &PageList, number: u32) -> bool
    ensures { IsTrue result ↔ IsNumbered table.now.items number }
{
    let pages = table.list();
    if pages.len() <= number as usize {
        return false;
    }
    pages[number as usize] != NOWHERE
}
