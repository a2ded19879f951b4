//! Each byte of the headers and of the gate pages of a file is changed in turn, and the changed file is opened and listed.
//!
//! For each of these pages it prints how many of the changed files were refused, and how many had which table. A changed file that
//! was not as the change says is printed too, and the program then ends with status 1.
#![tactic(auto)]

ghost use Rattle.std.specs.Prelude.{◌≡◌, ◌<◌};

mod counts;
mod flips;
mod history;
mod making;
mod meaning;
mod trials;

use counts::PageCounts;
use disk_trait::Steps;
use flips::Flip;
use making::{Kind, make_file};
use std::alloc::{AllocError, Global};
use std::io;
use std::marker::Brand;
use std::process::ExitCode;
use std::sync::ledger::{Blank, Ledger};
use trials::{Tried, try_file};

/// What came of a file of that kind, where one was made.
fn try_kind<L: Ledger>(alloc: Global, kind: Kind, blank: Blank) -> Result<Option<Tried>, AllocError>
    requires name { blank.name ≡ L.name }
    requires parts { blank.parts ≡ L.parts }
    requires some { 0 < L.parts }
{
    let mut steps = Steps::<L>::new(blank);
    match make_file(alloc, kind, &mut steps)? {
        Some(made) => Ok(Some(try_file(alloc, &made, &mut steps)?)),
        None => Ok(None),
    }
}

/// Prints a line for each page.
fn print_counts(rt: HostRuntime, counts: &[PageCounts]) -> io::Result<()> {
    for page in counts {
        println!(rt; "{page}")?;
    }
    Ok(())
}

/// Prints a line for each change whose file was not as it says.
fn print_wrong(rt: HostRuntime, wrong: &[Flip]) -> io::Result<()> {
    for flip in wrong {
        println!(rt; "wrong: {flip}")?;
    }
    Ok(())
}

/// Tries a file of that kind, and tells what came of it: the status to end with.
fn tell_kind(rt: HostRuntime, kind: Kind) -> io::Result<u8> {
    let Ok(Some(tried)) = try_kind::<Brand>(rt.alloc(), kind, Blank::new(1)) else {
        println!(rt; "{kind}: not tried")?;
        return Ok(1);
    };
    println!(rt; "{kind}")?;
    print_counts(rt, &tried.counts)?;
    print_wrong(rt, &tried.wrong)?;
    Ok(if tried.wrong.is_empty() { 0 } else { 1 })
}

fn main(rt: HostRuntime) -> ExitCode {
    let mut status = 0;
    for kind in [Kind::Unrooted, Kind::Settled] {
        match tell_kind(rt, kind) {
            Ok(told) => status |= told,
            Err(_) => return ExitCode::from(5),
        }
    }
    ExitCode::from(status)
}
