//! The script, taken from a source.
ghost use Rattle.std.specs.Prelude.{◌≡◌, ◌≤◌, ◌<◌, ◌+◌, ◌^◌, [], IsTrue, IsErrOf, IfOk, IfErr, OnErr, length, take, drop, vec_len};
ghost use Rattle.disk_trait.specs.Causes.{Rose};
ghost use Rattle.grid_shell.specs.Inputs.{LostAtMost};

use disk_trait::{Source, SourceFailed};
use std::alloc::{AllocError, Global};

/// Why input was not read.
#[derive(Clone, Copy, Debug, PartialEq, Eq)]
pub enum InputFault {
    Source,
    NoMemory,
}

/// How many bytes are asked for at once.
const PIECE: usize = 16384;

/// Reads to the end of the input, or until there are that many bytes. Each turn takes at least one byte or is the last.
pub fn read_all<S: Source>(
    alloc: Global,
    source: &mut S,
    most: usize,
) -> Result<Vec<u8>, InputFault>
    ensures bytes { IsTrue (S.tells source.old)
        → IfOk result (λ v. v.items ≡ take most (S.left source.old)) }
    ensures bound { IfOk result (λ v. vec_len v ≤ most) }
    ensures lost { IsTrue (S.tells source.old)
        → LostAtMost most (S.left source.old) (S.left source.new) }
    ensures later { S.fault_count source.old ≤ S.fault_count source.new }
    ensures failed { IsErrOf result InputFault.Source
        → Rose (S.fault_count source.old) (S.fault_count source.new) }
{
    let mut bytes = Vec::new(alloc);
    let mut piece = [0; PIECE];
    'pieces: while bytes.len() < most {
        let room = PIECE.min(most - bytes.len());
        match source.take(&mut piece[..room]) {
            Ok(0) => return Ok(bytes),
            Ok(count) => match bytes.extend_from_slice(&piece[..count]) {
                Ok(()) => {}
                Err(AllocError) => return Err(InputFault::NoMemory),
            },
            Err(SourceFailed) => return Err(InputFault::Source),
        }
    }
    Ok(bytes)
}
