//! What a file costs that one client has open, to be measured.
//!
//! `grid_store_bench make FILE PAGES SLOTS` makes a file of two attributes and prints how many pages it has; `put FILE COUNT SEED` opens
//! it and puts so many records, `get FILE COUNT SEED` gets as many, and `open FILE` opens it: these print the place at which it stands
//! then. On the error stream each tells the microseconds that its work took.
#![tactic(auto)]

mod asked;
mod work;

use asked::{Asked, read_asked};
use disk_file::FileBay;
use std::process::ExitCode;
use work::measure;

fn main(rt: HostRuntime) -> ExitCode {
    let Some(asked) = read_asked(&rt) else {
        return ExitCode::from(2);
    };
    let mut bay = FileBay::new(rt);
    let Some((done, took)) = measure(&rt, &mut bay, &asked) else {
        return ExitCode::from(5);
    };
    if eprintln!(rt; "{took} us").is_err() {
        return ExitCode::from(5);
    }
    if println!(rt; "{done}").is_err() {
        return ExitCode::from(5);
    }
    ExitCode::from(0)
}
