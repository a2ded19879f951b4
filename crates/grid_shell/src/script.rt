//! The script of a run, read and judged.
ghost use Rattle.std.specs.Prelude.{◌≡◌, ◌≤◌, IsTrue, IfOk, IfErr, length};
ghost use Rattle.grid_shell.specs.Inputs.{most_read, LostAtMost, IsUnreadSo, IsReadFor};

use crate::ending::Ending;
use crate::input::{InputFault, read_all};
use disk_trait::Source;
use grid_script::{Script, ScriptFault, read_script};
use std::alloc::Global;

/// How much of the input is read: one byte more than a script may have, so that a longer one shows.
const MOST: usize = 16_777_217;

/// Reads the script to its end and judges it, for keys of K numbers. An input that counts a failure is a failed device,
/// whatever it gave.
#[tactic(auto, unfolding(grid_model::specs::Script::longest))]
pub fn read_lines<const K: usize, S: Source>(
    alloc: Global,
    input: &mut S,
) -> Result<Script<K>, Ending>
    requires some { 1 ≤ K }
    requires few { K ≤ 4 }
    ensures read { IfOk result (λ s. IsReadFor S.Source s input.old input.new) }
    ensures unread { IfErr result (IsUnreadSo K S.Source input.old input.new) }
    ensures lost { IsTrue (S.tells input.old)
        → LostAtMost most_read (S.left input.old) (S.left input.new) }
{
    let before = input.faults();
    let bytes = match read_all(alloc, input, MOST) {
        Ok(bytes) => bytes,
        Err(InputFault::Source) => return Err(Ending::Device),
        Err(InputFault::NoMemory) => return Err(Ending::Memory),
    };
    if input.faults() != before {
        return Err(Ending::Device);
    }
    match read_script::<K>(alloc, bytes.as_slice()) {
        Ok(script) => Ok(script),
        Err(ScriptFault::Line(line)) => Err(Ending::BadScript { line }),
        Err(ScriptFault::NoMemory) => Err(Ending::Memory),
    }
}
