//! Scripts of requests read from bytes, and replies printed.
#![tactic(auto)]

mod data;
mod lines;
mod number;
mod printer;
mod reader;
mod script;
mod taken;
#[cfg(test)]
mod tests;
mod text;

pub use printer::{add_first, add_row, rows_of};
pub use reader::read_script;
pub use script::{Script, ScriptFault};
pub use taken::taken_law;
pub use text::{LINE, Text, add_client, add_front, add_made};
