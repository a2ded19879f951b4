//! The program's commands on whole files, each over a bay of disks and a file's name.
#![tactic(auto)]

mod making;

pub use making::{MakeFault, make_file};
