//! The journal: batches of updates on slot pages, and the gates that make them count.
#![tactic(auto)]

mod batch;
mod batches;
mod committing;
mod fields;
mod gates;
mod lawful;
mod laws;
mod reading;
mod scan;
mod scanning;
mod sections;
mod writing;

pub use batch::Batch;
pub use batches::Batches;
pub use committing::commit_batch;
pub use gates::{encode_gates, is_gate_page};
pub use laws::{committing_law, spelling_law};
pub use reading::decode;
pub use scan::Scan;
pub use scanning::scan_half;
pub use sections::{clear_half, open_gate, write_batch};
pub use writing::encode;

#[cfg(test)]
mod tests;
