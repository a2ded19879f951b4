//! The top call: all that the program does, over the words, the bay and the streams that it is handed.
ghost use Rattle.std.specs.Prelude.{◌≡◌, ◌⊎◌, ℕ, List, IsTrue, string_bytes};
ghost use Rattle.std.specs.Process.{exit_status};
ghost use Rattle.grid_words.specs.Commands.{Mean, file_of};
ghost use Rattle.grid_words.specs.Given.{words_of, LacksMemory};
ghost use Rattle.grid_words.specs.declared.command.Command.{Command};
ghost use Rattle.disk_trait.specs.Bay.{SameElsewhere};
ghost use Rattle.grid_shell.specs.Statuses.{IsStatus};
ghost use Rattle.grid_shell.specs.declared.ending.Ending.TheVariants.{Memory};
ghost use Rattle.grid_shell.specs.Commands.{AskNothing, Came, Does, Did, IsRun, IsUntouched};
ghost use Rattle.grid_shell.specs.Headline.{Serves};

use crate::ending::Ending;
use crate::files::{make, run};
use crate::telling::finish;
use crate::work::present_law;
use disk_trait::{Bay, Sink, Source};
use file_roots::uniqueness_law;
use grid_words::{Command, NotACommand, read_command};
use recovery::survey_law;
use std::alloc::Global;
use std::env::Args;
use std::io;
use std::process::ExitCode;

/// Does what a command asks.
fn do_command<B: Bay, S: Source, O: Sink>(
    alloc: Global,
    command: &Command,
    bay: &mut B,
    input: &mut S,
    out: &mut O,
) -> Ending
    requires { (words : List (List ℕ)) × Mean words command.now }
    ensures does { Does B.Bay B.Disk.Disk S.Source O.Sink command.now
        (bay.old, bay.new) (input.old, input.new) (out.old, out.new) result }
    ensures elsewhere { SameElsewhere B.tells B.place (file_of command.now) bay.old bay.new }
{
    match command {
        Command::Make { file, shape } => make(bay, file.as_str(), *shape, out),
        Command::Run { file } => run(alloc, bay, file.as_str(), input, out),
        Command::Check { .. } | Command::Dump { .. } | Command::Gen { .. } => Ending::BadWords,
    }
}

/// Does what the words of a command line ask.
fn do_words<B: Bay, S: Source, O: Sink>(
    alloc: Global,
    given: io::Result<Args>,
    bay: &mut B,
    input: &mut S,
    out: &mut O,
) -> Ending
    ensures came { Came B.Bay B.Disk.Disk S.Source O.Sink (words_of given)
        (bay.old, bay.new) (input.old, input.new) (out.old, out.new) result }
    ensures memory { LacksMemory given → result ≡ Memory }
{
    match read_command(alloc, given) {
        Ok(command) => do_command(alloc, &command, bay, input, out),
        Err(NotACommand::Words) => Ending::BadWords,
        Err(NotACommand::Memory) => Ending::Memory,
    }
}

/// Does all that the program does, over the command line as the system gave it, and answers the code that it ends with.
///
/// `make FILE K C P S [B M]` makes a file; `run FILE` answers the script that it reads from `input` over the file, and prints
/// the replies to `out`. What goes wrong is told to `err`. The statuses stand in the README.
pub fn run_grid<R: AllocGlobal, B: Bay, S: Source, O: Sink, E: Sink>(
    rt: &R,
    given: io::Result<Args>,
    bay: &mut B,
    input: &mut S,
    out: &mut O,
    err: &mut E,
) -> ExitCode
    // The status is 0, or 2 to 8. It is 2 only where the words behind the program's name ask nothing that it does, and then,
    // or where the system had no memory to give the words, nothing is touched.
    ensures known { IsStatus (exit_status result) }
    ensures words { exit_status result ≡ 2 → AskNothing (words_of given) }
    ensures nothing { AskNothing (words_of given)
        → IsUntouched (bay.old, bay.new) (input.old, input.new) (out.old, out.new) }
    ensures memory { LacksMemory given → exit_status result ≡ 6 }

    // The command that the words mean is done, and how it ends is told.
    ensures did { Did B.Bay B.Disk.Disk S.Source O.Sink E.Sink (words_of given)
        (bay.old, bay.new) (input.old, input.new) (out.old, out.new) (err.old, err.new)
        (exit_status result) }

    // A script that is asked over a file that stands is answered as a session of one client, or not begun.
    ensures served { (c : Command) → IsRun c → Mean (words_of given) c
        → Serves B.Bay B.Disk.Disk S.Source O.Sink (file_of c)
        (bay.old, bay.new) (input.old, input.new) (out.old, out.new) (exit_status result) }
{
    present_law::<B::Disk>();
    uniqueness_law();
    survey_law::<1>();
    survey_law::<2>();
    survey_law::<3>();
    survey_law::<4>();
    let ending = do_words(rt.alloc(), given, bay, input, out);
    finish(err, ending)
}
