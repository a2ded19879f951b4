//! The trials: a byte is changed, and the file is opened and listed.
use crate::counts::{Outcome, PageCounts};
use crate::flips::Flip;
use crate::history::{ATTRIBUTES, LAST, Table, plain_table, table_of, was_there};
use crate::making::Made;
use crate::meaning::{is_meant, may_break, may_hide, may_mislead};
use disk_memory::Memory;
use disk_trait::Steps;
use grid_store::open_store;
use grid_types::{Half, PAGE_BYTES, Query, Refusal, Side};
use std::alloc::{AllocError, Global};
use std::sync::ledger::Ledger;

/// How many bytes of a header page are changed in turn.
const HEADER_BYTES: u16 = 128;

/// What came of a file: the counts of each page, and each change that was wrong.
#[derive(Drop)]
pub struct Tried {
    pub counts: Vec<PageCounts>,
    pub wrong: Vec<Flip>,
}

/// What is found in a file.
#[derive(Clone, Copy)]
enum Found {
    /// It is not opened.
    Unopened(Refusal),
    /// It is opened, and not listed.
    Unlisted(Refusal),
    /// A place, and the table there; no table where the listing has other keys.
    Listed(u64, Option<Table>),
}

/// What is found in the file of these bytes.
fn find<L: Ledger>(
    alloc: Global,
    bytes: Vec<u8>,
    steps: &mut Steps<L>,
) -> Result<Found, AllocError> {
    if bytes.len() % PAGE_BYTES != 0 {
        return Err(AllocError);
    }
    let disk = Box::new(alloc, Memory::of(alloc, bytes)?)?;
    let mut store = match open_store::<ATTRIBUTES, Memory, L>(alloc, disk, steps) {
        Ok(store) => store,
        Err(unopened) => return Ok(Found::Unopened(unopened.refusal)),
    };
    let whole = Query {
        sides: [Side::Any; ATTRIBUTES],
    };
    match store.list(alloc, &whole, steps) {
        Ok(rows) => Ok(Found::Listed(rows.at, table_of(&rows.value))),
        Err(refusal) => Ok(Found::Unlisted(refusal)),
    }
}

/// What a place and a table are to the history.
fn judge(made: &Made, flip: &Flip, front: u64, table: &Table) -> Outcome {
    if front <= LAST && plain_table(front) == *table {
        if front == LAST {
            return Outcome::Same;
        }
        if may_hide(&made.geometry, flip) {
            return Outcome::Shorter;
        }
    }
    if !may_mislead(flip) {
        Outcome::Wrong
    } else if was_there(table) {
        Outcome::Misplaced
    } else {
        Outcome::Astray
    }
}

/// What comes of a file with that change.
fn try_flip<L: Ledger>(
    alloc: Global,
    made: &Made,
    flip: &Flip,
    steps: &mut Steps<L>,
) -> Result<Outcome, AllocError> {
    let mut bytes = Vec::new(alloc);
    bytes.extend_from_slice(&made.bytes)?;
    flip.make(&mut bytes);
    match find(alloc, bytes, steps)? {
        Found::Listed(front, Some(table)) => Ok(judge(made, flip, front, &table)),
        Found::Listed(_, None) => Ok(Outcome::Wrong),
        Found::Unopened(Refusal::NoMemory) | Found::Unlisted(Refusal::NoMemory) => Err(AllocError),
        Found::Unopened(refusal) => Ok(if is_meant(&made.geometry, flip, refusal) {
            Outcome::Refused
        } else {
            Outcome::Wrong
        }),
        Found::Unlisted(refusal) => Ok(if may_break(&made.geometry, flip, refusal) {
            Outcome::Broken
        } else {
            Outcome::Wrong
        }),
    }
}

/// Tries a change, and counts what comes of it.
fn count_flip<L: Ledger>(
    alloc: Global,
    made: &Made,
    flip: Flip,
    counts: &mut PageCounts,
    wrong: &mut Vec<Flip>,
    steps: &mut Steps<L>,
) -> Result<(), AllocError> {
    let outcome = try_flip(alloc, made, &flip, steps)?;
    counts.add(outcome);
    if outcome == Outcome::Wrong {
        wrong.push(flip)?;
    }
    Ok(())
}

/// Tries a byte: each of its bits alone, and all at once.
fn try_byte<L: Ledger>(
    alloc: Global,
    made: &Made,
    place: (u32, u16),
    counts: &mut PageCounts,
    wrong: &mut Vec<Flip>,
    steps: &mut Steps<L>,
) -> Result<(), AllocError> {
    let (page, at) = place;
    for bits in [1, 2, 4, 8, 16, 32, 64, 128, 255] {
        count_flip(alloc, made, Flip { page, at, bits }, counts, wrong, steps)?;
    }
    Ok(())
}

/// Tries the bytes of a page up to that one.
fn try_page<L: Ledger>(
    alloc: Global,
    made: &Made,
    page: u32,
    bytes: u16,
    wrong: &mut Vec<Flip>,
    steps: &mut Steps<L>,
) -> Result<PageCounts, AllocError> {
    let mut counts = PageCounts::new(page);
    for at in 0..bytes {
        try_byte(alloc, made, (page, at), &mut counts, wrong, steps)?;
    }
    Ok(counts)
}

/// Tries both header pages up to the end of the root's fields, and both gate pages whole.
pub fn try_file<L: Ledger>(
    alloc: Global,
    made: &Made,
    steps: &mut Steps<L>,
) -> Result<Tried, AllocError> {
    let pages = [
        (0, HEADER_BYTES),
        (1, HEADER_BYTES),
        (made.geometry.gate_page(Half::First), PAGE_BYTES as u16),
        (made.geometry.gate_page(Half::Second), PAGE_BYTES as u16),
    ];
    let mut counts = Vec::new(alloc);
    let mut wrong = Vec::new(alloc);
    for (page, bytes) in pages {
        counts.push(try_page(alloc, made, page, bytes, &mut wrong, steps)?)?;
    }
    Ok(Tried { counts, wrong })
}
