//! What a command line asks.

use grid_types::Shape;

/// What the program is asked to do with a file, which is named by its path.
#[derive(Debug, Drop)]
pub enum Command {
    /// To make it, with a shape that is lawful.
    Make {
        file: String,
        shape: Shape,
    },
    /// To run a script on it.
    Run {
        file: String,
    },
    /// To look whether it is sound.
    Check {
        file: String,
    },
    /// To write its records.
    Dump {
        file: String,
    },
    /// To run a script that is generated from a seed, with a line for each client in each round.
    Gen {
        file: String,
        seed: u32,
        rounds: u32,
        clients: u8,
    },
}

/// Why a command line is not read.
#[derive(Clone, Copy, Debug, PartialEq, Eq)]
pub enum NotACommand {
    /// Its words are none of the written forms.
    Words,
    /// There was no memory for it.
    Memory,
}
