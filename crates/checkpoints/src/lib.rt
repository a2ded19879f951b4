//! A root step of a file with one client: the next root is written beside the newest one, the pages that it has no need of
//! are free, and the half of the journal that is behind it is cleared.
#![tactic(auto)]

mod clearing;
mod closing;
mod emptying;
mod rooting;
mod stepping;

pub use emptying::clear_journal;
pub use stepping::checkpoint;

#[cfg(test)]
mod tests;
