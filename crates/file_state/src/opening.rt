//! The state of a file that is opened, from its newest root.
ghost use Rattle.std.specs.Prelude.{◌≡◌, ◌<◌, ◌≤◌, ℕ, length, map, replicate, slice_index, All, IfOk};
ghost use Rattle.grid_types.specs.declared.sizes.TheConstants.{MOST_PAGES};
ghost use Rattle.grid_model.specs.Images.{numbers_of};
ghost use Rattle.grid_model.specs.Lawful.{nowhere, pages_named};
ghost use Rattle.grid_model.specs.Lists.{below};
ghost use Rattle.page_states.specs.Changes.{all_published};
ghost use Rattle.layout_pages.specs.Steps.{bucket_publication, part_publication, opened_states};
ghost use Rattle.linear_scales.specs.Limited.{limits_of};
ghost use Rattle.linear_scales.specs.Roots.{IsRoot, whole_of, area_of};
ghost use Rattle.file_books.specs.Effects.{opened_books};
ghost use Rattle.file_state.specs.Memories.{books_of, IsMemory};
ghost use Rattle.file_state.specs.Openings.{AreBeginnable, OthersStayFree};

use crate::memory::{Counts, Journal, Memory, Roots};
use grid_types::{Geometry, Half, Owner};
use linear_scales::{NOWHERE, Root, Scales};
use page_states::PageStates;
use std::alloc::{AllocError, Global};

/// The page of each bucket that a table names is current from a place on.
fn begin_buckets(states: &mut PageStates, table: &[u32], at: u64)
    requires few { length table.now ≤ MOST_PAGES }
    requires known { length table.now ≤ length states.old }
    requires free { AreBeginnable table.now states.old }
    ensures states { states.new
        ≡ all_published at (map (bucket_publication table.now) (numbers_of table.now)) states.old }
    ensures others { OthersStayFree table.now states.old states.new }
    ensures count { length states.new ≡ length states.old }
{
    for n in 0..table.len() {
        let page = table[n];
        if page != NOWHERE {
            states.begin(page, Owner::Bucket(n as u32), at);
        }
    }
}

/// The page of each directory part is current from a place on.
fn begin_parts(states: &mut PageStates, parts: &[u32], at: u64)
    requires few { length parts.now ≤ MOST_PAGES }
    requires known { length parts.now ≤ length states.old }
    requires named { All (λ p. p < nowhere) parts.now }
    requires free { AreBeginnable parts.now states.old }
    ensures { states.new
        ≡ all_published at (map (part_publication parts.now) (below (length parts.now))) states.old }
{
    for p in 0..parts.len() {
        states.begin(parts[p], Owner::Part(p as u32), at);
    }
}

/// How many buckets a table names.
fn count_buckets(table: &[u32]) -> u32
    requires { length table.now ≤ MOST_PAGES }
    ensures { result ≡ length (pages_named table.now) }
{
    let mut count = 0;
    for page in table {
        if *page != NOWHERE {
            count += 1;
        }
    }
    count
}

/// The states of the data pages where those that a root names are current.
fn open_pages<const K: usize>(
    alloc: Global,
    geometry: &Geometry,
    root: &Root<K>,
) -> Result<PageStates, AllocError>
    requires { IsRoot geometry.now.shape root.now }
    ensures { IfOk result (λ s. s
        ≡ opened_states geometry.now.shape.pages root.now.front (area_of root.now)) }
{
    let mut states = PageStates::new(alloc, geometry.shape.pages)?;
    begin_buckets(&mut states, root.table.list(), root.front);
    begin_parts(&mut states, root.parts.list(), root.front);
    Ok(states)
}

/// The same scales, in memory of their own.
fn copy_scales<const K: usize>(
    alloc: Global,
    limit: u16,
    scales: &Scales<K>,
) -> Result<Scales<K>, AllocError>
    requires { limits_of scales.now ≡ replicate K limit }
    ensures { IfOk result (λ s. s ≡ scales.now) }
{
    let mut copy = Scales::new(alloc, limit)?;
    copy.copy_from(scales);
    Ok(copy)
}

/// What memory keeps of a file that is opened.
pub(crate) fn open<const K: usize>(
    alloc: Global,
    geometry: Geometry,
    root: &Root<K>,
    used: [u32; 2],
) -> Result<Memory<K>, AllocError>
    requires attributes { geometry.shape.k ≡ K }
    requires root { IsRoot geometry.shape root.now }
    requires limits { limits_of root.now.scales ≡ replicate K geometry.shape.boundaries }
    requires first { slice_index used 0 ≤ geometry.shape.slots }
    requires second { slice_index used 1 ≤ geometry.shape.slots }
    ensures memory { IfOk result (λ m. IsMemory m) }
    ensures books { IfOk result (λ m. books_of m
        ≡ opened_books geometry.shape (whole_of root.now)
        (slice_index used 0) (slice_index used 1)) }
{
    let shape = geometry.shape;
    let pages = open_pages(alloc, &geometry, root)?;
    let scales = copy_scales(alloc, shape.boundaries as u16, &root.scales)?;
    Ok(Memory {
        geometry,
        counts: Counts {
            session: root.session,
            front: root.front,
            records: root.records,
            buckets: count_buckets(root.table.list()),
        },
        roots: Roots {
            number: root.number,
            place: root.front,
            trying: None,
        },
        journal: Journal {
            half: Half::First,
            first_used: used[0],
            second_used: used[1],
        },
        scales,
        pages,
        unused_from: 0,
    })
}
