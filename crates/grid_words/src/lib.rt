//! The command lines of the program: which words mean which command.
#![tactic(auto)]

mod command;
mod forms;
mod numbers;
mod program;
mod reading;
#[cfg(test)]
mod tests;

pub use command::{Command, NotACommand};
pub use reading::read_command;
