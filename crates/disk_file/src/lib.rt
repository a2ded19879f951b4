//! The outside itself: disks and bays over the system's files, a source and a sink over its streams.
//!
//! These adapters are the trusted edge. They tell nothing of content, so each meets its trait by counts and sizes alone;
//! that they write what they were asked, and nothing else, is to be read off their few lines.
#![tactic(auto)]

mod bay;
mod disk;
mod streams;

pub use bay::FileBay;
pub use disk::FileDisk;
pub use streams::{StreamSink, StreamSource};
