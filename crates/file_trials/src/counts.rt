//! What came of changed files, counted.
use std::fmt;

/// What came of a changed file.
#[derive(Clone, Copy, Debug, PartialEq, Eq)]
pub enum Outcome {
    /// It was refused, for what the change may say something of.
    Refused,
    /// It was opened, and its listing was refused: a data page that it names has been used again.
    Broken,
    /// It has the place and the table that it had.
    Same,
    /// It has a place and a table that it had earlier, by a change that may hide updates.
    Shorter,
    /// It has a table that it had once, at another place, by a change of the root's front.
    Misplaced,
    /// It has a table that it never had, by a change of the root's front.
    Astray,
    /// Anything else.
    Wrong,
}

/// What came of the files in which a byte of this page was changed.
#[derive(Clone, Copy, Debug)]
pub struct PageCounts {
    pub page: u32,
    pub refused: u32,
    pub broken: u32,
    pub same: u32,
    pub shorter: u32,
    pub misplaced: u32,
    pub astray: u32,
    pub wrong: u32,
}

impl PageCounts {
    /// None yet.
    pub fn new(page: u32) -> PageCounts {
        PageCounts {
            page,
            refused: 0,
            broken: 0,
            same: 0,
            shorter: 0,
            misplaced: 0,
            astray: 0,
            wrong: 0,
        }
    }

    /// One more.
    pub fn add(&mut self, outcome: Outcome) {
        let count = match outcome {
            Outcome::Refused => &mut self.refused,
            Outcome::Broken => &mut self.broken,
            Outcome::Same => &mut self.same,
            Outcome::Shorter => &mut self.shorter,
            Outcome::Misplaced => &mut self.misplaced,
            Outcome::Astray => &mut self.astray,
            Outcome::Wrong => &mut self.wrong,
        };
        *count = count.saturating_add(1);
    }
}

impl fmt::Display for PageCounts {
    fn fmt<W: fmt::Write>(&self, f: &mut fmt::Formatter<W>) -> fmt::Result {
        let PageCounts {
            page,
            refused,
            broken,
            same,
            shorter,
            misplaced,
            astray,
            wrong,
        } = *self;
        write!(
            f,
            "page {page}: {refused} refused, {broken} broken, {same} the same, {shorter} shorter, {misplaced} misplaced, {astray} astray, {wrong} wrong"
        )
    }
}
