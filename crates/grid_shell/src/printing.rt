//! What is printed: the replies of a session, through one buffer of fixed size, and that a file was made.
ghost use Rattle.std.specs.Prelude.{◌≡◌, ◌≤◌, ◌+◌, ◌++◌, IsTrue, OnOk, flat_map};
ghost use Rattle.grid_types.specs.declared.sizes.TheConstants.{MOST_ATTRIBUTES};
ghost use Rattle.arrayvec.specs.ArrayVec.{array_vec_len};
ghost use Rattle.grid_model.specs.Text.{reply_lines, ended};
ghost use Rattle.disk_trait.specs.Causes.{HasCause};
ghost use Rattle.disk_trait.specs.Streams.{AddsFront};
ghost use Rattle.grid_shell.specs.Endings.{EndsBeside};
ghost use Rattle.grid_shell.specs.Printing.{Passes, IsPrinted, PrintsSession, session_text};
ghost use Rattle.grid_script.specs.Fields.{made_line};
ghost use Rattle.grid_shell.specs.declared.ending.Ending.TheVariants.{Done};

use crate::ending::Ending;
use disk_trait::{Sink, SinkFailed, put_all};
use grid_script::{LINE, Text, add_client, add_first, add_front, add_made, add_row, rows_of};
use grid_types::Reply;

/// Gives the lines to the sink where there is no room for one more.
fn make_room<O: Sink>(out: &mut O, lines: &mut Text) -> Result<(), SinkFailed>
    ensures passes { Passes O.Sink lines.old.items lines.new.items out.old out.new result }
    ensures room { OnOk result (array_vec_len lines.new + LINE ≤ 4096) }
{
    if lines.len() <= 4096 - LINE {
        return Ok(());
    }
    put_all(out, lines.as_slice())?;
    lines.clear();
    Ok(())
}

/// Adds the lines of a reply, behind those that are there.
fn print_reply<const K: usize, O: Sink>(
    out: &mut O,
    reply: &Reply<K>,
    lines: &mut Text,
) -> Result<(), SinkFailed>
    requires { K ≤ MOST_ATTRIBUTES }
    ensures { Passes O.Sink (lines.old.items ++ flat_map ended (reply_lines reply.now))
        lines.new.items out.old out.new result }
{
    make_room(out, lines)?;
    add_first(reply, lines);
    for row in rows_of(reply) {
        make_room(out, lines)?;
        add_row(row, lines);
    }
    Ok(())
}

/// Prints the replies and the front. Where it fails the sink has received a front of them.
fn print_all<const K: usize, O: Sink>(
    out: &mut O,
    replies: &[Reply<K>],
    front: u64,
) -> Result<(), SinkFailed>
    requires { K ≤ MOST_ATTRIBUTES }
    ensures printed { IsTrue (O.tells out.old) → OnOk result (O.received out.new
        ≡ O.received out.old ++ session_text replies.now front) }
    ensures front { IsTrue (O.tells out.old) → AddsFront (O.received out.old) (O.received out.new)
        (session_text replies.now front) }
    ensures cause { HasCause (O.fault_count out.old) (O.fault_count out.new) result }
{
    let mut lines = Text::new();
    if !replies.is_empty() {
        add_client(1, &mut lines);
    }
    for reply in replies {
        print_reply(out, reply, &mut lines)?;
    }
    make_room(out, &mut lines)?;
    add_front(front, &mut lines);
    put_all(out, lines.as_slice())
}

/// Prints the replies of a session and its front, and answers how the run ends. Where it fails the sink has received a front
/// of the text.
pub fn print_session<const K: usize, O: Sink>(
    out: &mut O,
    replies: &[Reply<K>],
    front: u64,
) -> Ending
    requires { K ≤ MOST_ATTRIBUTES }
    ensures { PrintsSession O.Sink replies.now front out.old out.new result }
{
    let worst = Ending::worst(replies);
    let before = out.faults();
    match print_all(out, replies, front) {
        Ok(()) if out.faults() == before => worst,
        _ => worst.with_fault(),
    }
}

/// Prints how many pages a file has that was made.
fn put_made<O: Sink>(out: &mut O, pages: u64) -> Result<(), SinkFailed>
    ensures printed { IsTrue (O.tells out.old) → OnOk result (O.received out.new
        ≡ O.received out.old ++ made_line pages) }
    ensures front { IsTrue (O.tells out.old)
        → AddsFront (O.received out.old) (O.received out.new) (made_line pages) }
    ensures cause { HasCause (O.fault_count out.old) (O.fault_count out.new) result }
{
    let mut lines = Text::new();
    add_made(pages, &mut lines);
    put_all(out, lines.as_slice())
}

/// Prints that a file of so many pages was made, and answers how the command ends.
pub fn print_made<O: Sink>(out: &mut O, pages: u64) -> Ending
    ensures printed { IsPrinted O.Sink (made_line pages) out.old out.new }
    ensures ends { EndsBeside Done (O.fault_count out.old) (O.fault_count out.new) result }
{
    let before = out.faults();
    match put_made(out, pages) {
        Ok(()) if out.faults() == before => Ending::Done,
        _ => Ending::Device,
    }
}
