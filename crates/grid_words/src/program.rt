//! What `clap` is told of the program.
ghost use Rattle.std.specs.Prelude.{◌≡◌, IfOk, false};
ghost use Rattle.clap.specs.Words.{app_of};
ghost use Rattle.clap.specs.declared.builder.command.Command.TheViews.{out-Command as fields_of};
ghost use Rattle.grid_words.specs.Program.{verb_app, with_verb, grid_app};

use crate::numbers::MOST_NUMBERS;
use clap::{Arg, Command};
use std::alloc::{AllocError, Global};

/// A verb, with the name of a file behind it, and then some numbers or none.
fn verb<'a>(alloc: Global, name: &'a str) -> Result<Command<'a>, AllocError>
    ensures app { IfOk result (λ c. app_of c ≡ verb_app name.now) }
    ensures local { IfOk result (λ c. (fields_of c).has_globals ≡ false) }
{
    let file = Arg::new(alloc, "file").required(true);
    let numbers = Arg::new(alloc, "numbers").num_args(1..=MOST_NUMBERS);
    Command::new(alloc, name).arg(file)?.arg(numbers)
}

/// A program with one more verb.
fn with_verb<'a>(
    alloc: Global,
    program: Command<'a>,
    name: &'a str,
) -> Result<Command<'a>, AllocError>
    ensures { IfOk result (λ c. app_of c ≡ with_verb (app_of program.entry) name.now) }
{
    let added = verb(alloc, name)?;
    program.subcommand(added)
}

/// The program with its verbs. It has no help, and its words come without its own name.
pub fn program<'a>(alloc: Global) -> Result<Command<'a>, AllocError>
    ensures { IfOk result (λ c. app_of c ≡ grid_app) }
{
    let bare = Command::new(alloc, "grid")
        .no_binary_name(true)
        .disable_help_flag(true)
        .disable_help_subcommand(true);
    let made = with_verb(alloc, bare, "make")?;
    let run = with_verb(alloc, made, "run")?;
    let checked = with_verb(alloc, run, "check")?;
    let dumped = with_verb(alloc, checked, "dump")?;
    with_verb(alloc, dumped, "gen")
}
