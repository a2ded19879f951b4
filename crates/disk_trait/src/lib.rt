//! The outside as traits: what a disk, a bay of disks, a source and a sink mean, and which counts they keep.
//!
//! A disk that tells its content is called honest; a bay, a source and a sink that do so are said to tell. Each clause on
//! content stands under that premise, so that a real file, of which no clause can say what it holds, meets the same
//! traits by its counts and sizes alone.
#![tactic(auto)]

mod bay;
mod disk;
mod section;
mod sink;
mod source;
mod steps;

pub use bay::{Bay, BayFailed};
pub use disk::{Disk, DiskFailed};
pub use section::{read_page, sync_all, write_page, write_through};
pub use sink::{Sink, SinkFailed, put_all};
pub use source::{Source, SourceFailed};
pub use steps::Steps;
