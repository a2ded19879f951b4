//! What the error sink is told.
ghost use Rattle.std.specs.Prelude.{◌≡◌, ◌≤◌, ◌⊎◌, ◌++◌, IsTrue, OnOk};
ghost use Rattle.std.specs.Process.{exit_status};
ghost use Rattle.disk_trait.specs.Causes.{HasCause, Rose};
ghost use Rattle.grid_shell.specs.Statuses.{IsStatus};
ghost use Rattle.grid_shell.specs.Endings.{status_of, numbered_line, error_text};

use crate::ending::Ending;
use disk_trait::{Sink, SinkFailed, put_all};
use itoa::Buffer;
use std::process::ExitCode;

/// Tells some words, a number, and the end of the line.
pub fn tell_number<E: Sink>(err: &mut E, words: &[u8], number: u64) -> Result<(), SinkFailed>
    ensures told { IsTrue (E.tells err.old)
        → OnOk result (E.received err.new ≡ E.received err.old ++ numbered_line words.now number) }
    ensures cause { HasCause (E.fault_count err.old) (E.fault_count err.new) result }
{
    let mut buffer = Buffer::new();
    put_all(err, words)?;
    put_all(err, buffer.format(number).as_bytes())?;
    put_all(err, b"\n")
}

/// Tells an ending on the error sink. Most endings have nothing to tell.
pub fn tell<E: Sink>(err: &mut E, ending: Ending) -> Result<(), SinkFailed>
    ensures told { IsTrue (E.tells err.old)
        → OnOk result (E.received err.new ≡ E.received err.old ++ error_text ending) }
    ensures cause { HasCause (E.fault_count err.old) (E.fault_count err.new) result }
{
    match ending {
        Ending::BadWords => put_all(err, b"grid: words\n"),
        Ending::BadScript { line } => tell_number(err, b"grid: script line ", line),
        Ending::ForeignFile => put_all(err, b"grid: foreign\n"),
        Ending::OtherVersion { found } => tell_number(err, b"grid: version ", found.into()),
        Ending::DamagedFile { page } => tell_number(err, b"grid: damaged page ", page.into()),
        Ending::OtherArity { found } => tell_number(err, b"grid: arity ", found.into()),
        Ending::WornFile { count } => tell_number(err, b"grid: worn ", count),
        Ending::Device => put_all(err, b"grid: device\n"),
        Ending::Memory => put_all(err, b"grid: memory\n"),
        Ending::Done | Ending::Damaged | Ending::Refused | Ending::Unsure => put_all(err, b""),
    }
}

/// Tells an ending, and answers the code of its status. Where the error sink fails that is the same.
pub fn finish<E: Sink>(err: &mut E, ending: Ending) -> ExitCode
    ensures status { exit_status result ≡ status_of ending }
    ensures known { IsStatus (exit_status result) }
    ensures told { IsTrue (E.tells err.old)
        → Rose (E.fault_count err.old) (E.fault_count err.new)
        ⊎ (E.received err.new ≡ E.received err.old ++ error_text ending) }
{
    let _ = tell(err, ending);
    ExitCode::from(ending.status())
}
