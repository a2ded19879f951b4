//! The outside in memory: a disk, a bay of disks, a source and a sink, which tell all that they hold.
//!
//! Calls of each may be chosen to fail, so that what stands on the traits of the outside is tried at each fault.
#![tactic(auto)]

mod bay;
mod fused;
mod history;
mod keep;
mod memory;
mod piece;
mod plan;
mod replay;
mod sink;
mod source;

pub use bay::MemoryBay;
pub use fused::Fused;
pub use keep::Keep;
pub use memory::Memory;
pub use sink::ByteSink;
pub use source::ByteSource;

#[cfg(test)]
mod tests;
