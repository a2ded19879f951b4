//! Which command the words of a command line mean.
ghost use Rattle.std.specs.Prelude.{◌≡◌, ◌≤◌, ◌<◌, ◌^◌, ◌↔◌, ℕ, List, length, ◌∷◌, map, unwrap_or, [], codes, decimal, IsTrue, IfSome, IfNone, IfOk, IfErr, Err, string_bytes};
ghost use Rattle.std.specs.List.{All};
ghost use Rattle.clap.specs.Words.{Text, all_of, found_of, rows_of};
ghost use Rattle.grid_words.specs.Commands.{IsPlain, Mean, MeanNothing};
ghost use Rattle.grid_words.specs.Given.{coming, behind_first, words_of, LacksMemory};
ghost use Rattle.grid_words.specs.Program.{found_in};
ghost use Rattle.grid_words.specs.declared.numbers.TheConstants.{MOST_NUMBERS};
ghost use Rattle.grid_words.specs.declared.command.NotACommand.TheVariants.{Memory, Words};

use crate::command::{Command, NotACommand};
use crate::forms::written_command;
use crate::numbers::{Numbers, numbers_of};
use crate::program::program;
use clap::ArgMatches;
use clap::error::ErrorKind as ParseKind;
use std::alloc::{AllocError, Global};
use std::env::Args;
use std::io;
use std::io::ErrorKind;

/// Whether a word is plain. Others are not shown to `clap`, which takes them for options.
fn is_plain(word: &str) -> bool
    ensures { IsTrue result ↔ IsPlain word.now }
{
    match word.as_bytes() {
        [] => false,
        [first, ..] => *first != b'-',
    }
}

/// The words behind the program's name, where each of them is plain.
fn plain_words(alloc: Global, arguments: Args) -> Result<Option<Vec<String>>, AllocError>
    ensures words { IfOk result (λ found. IfSome found (λ words.
        map string_bytes words.items ≡ behind_first (coming arguments))) }
    ensures plain { IfOk result (λ found. IfSome found (λ words.
        All IsPlain (map string_bytes words.items))) }
    ensures nothing { IfOk result (λ found.
        IfNone found (MeanNothing (behind_first (coming arguments)))) }
{
    let mut arguments = arguments;
    let Some(_program) = arguments.next() else {
        return Ok(None);
    };
    let mut words = Vec::new(alloc);
    while let Some(word) = arguments.next() {
        if !is_plain(word.as_str()) {
            return Ok(None);
        }
        words.push(word)?;
    }
    Ok(Some(words))
}

/// The numbers that `clap` found behind the name of a file.
fn numbers_in(found: &ArgMatches) -> Option<Numbers>
    ensures found { IfSome result (λ numbers.
        unwrap_or (all_of (codes "numbers") (rows_of (found_of found.now))) []
        ≡ map decimal numbers.items) }
    ensures small { IfSome result (λ numbers. All (λ n. n < 2 ^ 32) numbers.items) }
    ensures none { IfNone result ((numbers : List ℕ) → length numbers ≤ MOST_NUMBERS
        → All (λ n. n < 2 ^ 32) numbers
        → unwrap_or (all_of (codes "numbers") (rows_of (found_of found.now))) []
        ≡ map decimal numbers → ⊥) }
{
    match found.get_strs("numbers") {
        Some(words) => numbers_of(words),
        None => Some(Numbers::new()),
    }
}

/// The command that a verb and what `clap` found in the words behind it mean.
fn command_in(alloc: Global, verb: &str, found: &ArgMatches) -> Result<Option<Command>, AllocError>
    ensures meant { (words : List Text) → rows_of (found_of found.now) ≡ found_in words
        → All IsPlain words
        → IfOk result (λ read. IfSome read (λ c. Mean (verb.now ∷ words) c)) }
    ensures nothing { (words : List Text) → rows_of (found_of found.now) ≡ found_in words
        → IfOk result (λ read. IfNone read (MeanNothing (verb.now ∷ words))) }
{
    let Some(name) = found.get_str("file") else {
        return Ok(None);
    };
    let Some(numbers) = numbers_in(found) else {
        return Ok(None);
    };
    let file = String::from_str(alloc, name)?;
    Ok(written_command(verb, file, numbers.as_slice()))
}

/// The command that plain words mean.
fn meant_command(alloc: Global, words: &[String]) -> Result<Option<Command>, AllocError>
    requires plain { All IsPlain (map string_bytes words.now) }
    ensures meant { IfOk result (λ read.
        IfSome read (λ c. Mean (map string_bytes words.now) c)) }
    ensures nothing { IfOk result (λ read.
        IfNone read (MeanNothing (map string_bytes words.now))) }
{
    let program = program(alloc)?;
    let matches = match program.try_get_matches_from(words) {
        Ok(matches) => matches,
        Err(error) if error.kind() == ParseKind::OutOfMemory => return Err(AllocError),
        Err(_) => return Ok(None),
    };
    let Some((verb, found)) = matches.subcommand() else {
        return Ok(None);
    };
    command_in(alloc, verb, found)
}

/// The command that arguments mean, of which the first is the program's name.
fn asked_command(alloc: Global, arguments: Args) -> Result<Option<Command>, AllocError>
    ensures meant { IfOk result (λ read.
        IfSome read (λ c. Mean (behind_first (coming arguments)) c)) }
    ensures nothing { IfOk result (λ read.
        IfNone read (MeanNothing (behind_first (coming arguments)))) }
{
    match plain_words(alloc, arguments)? {
        Some(words) => meant_command(alloc, words.as_slice()),
        None => Ok(None),
    }
}

/// The command that a command line means, as the system gave it. A line with a word that is no text is none of the
/// written forms. `Memory` is also the answer where none is left to read the words.
pub fn read_command(alloc: Global, given: io::Result<Args>) -> Result<Command, NotACommand>
    ensures meant { IfOk result (λ c. Mean (words_of given) c) }
    ensures nothing { IfErr result (λ why. why ≡ Words → MeanNothing (words_of given)) }
    ensures memory { LacksMemory given → result ≡ Err Memory }
{
    let arguments = match given {
        Ok(arguments) => arguments,
        Err(error) if error.kind() == ErrorKind::OutOfMemory => return Err(NotACommand::Memory),
        Err(_) => return Err(NotACommand::Words),
    };
    match asked_command(alloc, arguments) {
        Ok(Some(command)) => Ok(command),
        Ok(None) => Err(NotACommand::Words),
        Err(_) => Err(NotACommand::Memory),
    }
}
