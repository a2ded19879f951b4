//! The program: a grid file on the command line.
#![tactic(auto)]

mod ending;
mod files;
mod input;
mod printing;
mod run;
mod script;
mod telling;
mod work;

use disk_file::{FileBay, StreamSink, StreamSource};
use run::run_grid;
use std::env;
use std::process::ExitCode;

fn main(rt: HostRuntime) -> ExitCode {
    let mut bay = FileBay::new(rt);
    let mut input = StreamSource::new(rt.stdin());
    let mut out = StreamSink::new(rt.stdout());
    let mut err = StreamSink::new(rt.stderr());
    run_grid(
        &rt,
        env::args(&rt),
        &mut bay,
        &mut input,
        &mut out,
        &mut err,
    )
}
