//! The states of the pages as one value: a list of them, by page number.
ghost use Rattle.std.specs.Prelude.{◌≡◌, ◌≤◌, ◌<◌, ℕ, length, map, take, replicate, true, false, Some, IfOk, IfSome, IfNone, slice_get};
ghost use Rattle.std.specs.List.{count_by, list_any};
ghost use Rattle.grid_types.specs.declared.owner.Owner.TheVariants.{Bucket, Part};
ghost use Rattle.grid_types.specs.declared.sizes.TheConstants.{MOST_PAGES};
ghost use Rattle.page_states.specs.declared.page_state.PageState.{PageState};
ghost use Rattle.page_states.specs.declared.page_state.PageState.TheVariants.{Free, Claimed};
ghost use Rattle.page_states.specs.States.{is_free, is_claimed_by, number_of, shows};
ghost use Rattle.page_states.specs.Current.{TellsPages};
ghost use Rattle.page_states.specs.Effects.{free_pages, claim_all, with_newest, vanished, given_back, swept, is_of_roots, IsClaimed, IsPageAt, ShowsNone};

use crate::claiming::claim_lowest;
use crate::current::{tell_buckets, tell_parts};
use crate::freeing::give_back_all;
use crate::publishing::{begin_free_page, end_page, publish_page};
use crate::reading::{free_count, has_claims, page_of};
use crate::roots::has_roots_page;
use crate::sweeping::sweep_all;
use crate::table::Table;
use grid_types::Owner;
use std::alloc::{AllocError, Global};
use std::marker::Model;

/// The state of each page.
#[derive(Drop)]
pub struct PageStates {
    table: Table,
}

impl Model for PageStates {
    ghost use Rattle.std.specs.Prelude.{List};
    ghost use Rattle.page_states.specs.declared.page_state.PageState.{PageState};
    ghost use Rattle.page_states.specs.Tables.{IsPageTable};

    ghost Value = { List PageState };

    ghost view = { λ s. s.table.states.items };

    ghost invariant = { λ s. IsPageTable s.table };
}

impl PageStates {
    /// That many free pages. All memory that is ever needed is taken here.
    pub fn new(alloc: Global, pages: u32) -> Result<PageStates, AllocError>
        requires { pages ≤ MOST_PAGES }
        ensures { IfOk result (λ s. s ≡ replicate pages Free) }
    {
        Ok(PageStates {
            table: Table::new(alloc, pages)?,
        })
    }

    /// How many pages are free.
    pub fn free(&self) -> u32
        ensures { result ≡ count_by is_free self.now }
    {
        free_count(&self.table)
    }

    /// Pages for a change of the seat, one for each place in `out`.
    pub fn claim(&mut self, seat: u32, out: &mut [u32])
        requires { length out.old ≤ count_by is_free self.old }
        ensures pages { out.new ≡ take (length out.old) (free_pages self.old) }
        ensures states { self.new ≡ claim_all seat out.new self.old }
    {
        claim_lowest(&mut self.table, seat, out);
    }

    /// What a seat wrote to a page that it had claimed is the owner's from the place of its update on.
    pub fn publish(&mut self, page: u32, owner: Owner, at: u64)
        requires known { number_of owner < length self.old }
        requires claimed { IsClaimed self.old page }
        ensures { self.new ≡ with_newest page owner at self.old }
    {
        publish_page(&mut self.table, page, owner, at);
    }

    /// A free page is an owner's from a place on, as the root of a file that is opened says it.
    pub fn begin(&mut self, page: u32, owner: Owner, at: u64)
        requires known { number_of owner < length self.old }
        requires free { slice_get self.old page ≡ Some Free }
        ensures { self.new ≡ with_newest page owner at self.old }
    {
        begin_free_page(&mut self.table, page, owner, at);
    }

    /// An owner is no more, as a bucket that was merged into another one.
    pub fn vanish(&mut self, owner: Owner, at: u64)
        requires { number_of owner < length self.old }
        ensures { self.new ≡ vanished owner at self.old }
    {
        end_page(&mut self.table, owner, at);
    }

    /// What a seat claimed and did not publish is free again.
    pub fn give_back(&mut self, seat: u32)
        ensures { self.new ≡ given_back seat self.old }
    {
        give_back_all(&mut self.table, seat);
    }

    /// Whether the seat has a claimed page.
    pub fn claimed(&self, seat: u32) -> bool
        ensures { result ≡ list_any (is_claimed_by seat) self.now }
    {
        has_claims(&self.table, seat)
    }

    /// The page in which an owner is found by whoever has this place pinned. One that is current is found at once, and
    /// so is one that was current at either of the first two places of the latest sweep. Of the others, those that were
    /// replaced last are looked at first.
    pub fn page_at(&self, owner: Owner, place: u64) -> Option<u32>
        requires { number_of owner < length self.now }
        ensures found { IfSome result (λ p. IsPageAt owner place self.now p) }
        ensures none { IfNone result (ShowsNone owner place self.now) }
    {
        page_of(&self.table, owner, place)
    }

    /// Frees what no kept place needs. The places that are kept longest, as those of the roots, are best told first:
    /// what the first two different places keep is not looked at again as long as they are the first two, in either
    /// order. When one of them no longer is, its pages are looked at once.
    pub fn sweep(&mut self, places: &[u64])
        ensures { self.new ≡ swept places.now self.old }
    {
        sweep_all(&mut self.table, places);
    }

    /// Whether a newer root would free a page. It looks at each replaced page until it finds one.
    pub fn would_free(&self, pins: &[u64], roots: &[u64]) -> bool
        ensures { result ≡ list_any (is_of_roots pins.now roots.now) self.now }
    {
        has_roots_page(&self.table, pins, roots)
    }

    /// The table of a root's buckets: the current page of each bucket number, or `nowhere`.
    pub fn bucket_pages(&self, nowhere: u32, out: &mut [u32])
        requires { length out.old ≤ length self.now }
        ensures told { TellsPages Bucket nowhere self.now out.new (length out.new) }
        ensures length { length out.new ≡ length out.old }
    {
        tell_buckets(&self.table, nowhere, out);
    }

    /// The table of a root's parts: the current page of each part number, or `nowhere`.
    pub fn part_pages(&self, nowhere: u32, out: &mut [u32])
        requires { length out.old ≤ length self.now }
        ensures told { TellsPages Part nowhere self.now out.new (length out.new) }
        ensures length { length out.new ≡ length out.old }
    {
        tell_parts(&self.table, nowhere, out);
    }
}
