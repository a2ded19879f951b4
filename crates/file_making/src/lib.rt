//! How a file is made: each of its pages is written, in order, and then all is put on the disk.
#![tactic(auto)]

mod area;
mod content;
mod data;
mod headers;
mod journal;
mod making;
mod pages;

pub use making::make;

#[cfg(test)]
mod tests;
