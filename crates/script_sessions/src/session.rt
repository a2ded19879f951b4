//! The lines of a script, answered one after the other.
ghost use Rattle.std.specs.Prelude.{◌≡◌, ◌≤◌, [], All, IsTrue, length, vec_len, vec_capacity};
ghost use Rattle.disk_trait.specs.Calls.{Changes};
ghost use Rattle.grid_model.specs.Lone.{State};
ghost use Rattle.checkpoints.specs.Disks.{KeepsLength};
ghost use Rattle.client_sessions.specs.Points.{Point};
ghost use Rattle.grid_store.specs.Stores.{IsStoreAt, IsStoreAlone};
ghost use Rattle.script_sessions.specs.Replies.{AreRepliesTo, CountsFault, NoneRefused};
ghost use Rattle.script_sessions.specs.Sessions.{AnsweredAll, AnsweredAllLone};

use crate::lines::answer_line;
use client_sessions::session_law;
use disk_trait::{Disk, Steps};
use grid_store::{Store, store_law};
use grid_types::{Line, Reply};
use std::alloc::Global;
use std::sync::ledger::Ledger;

/// Answers each line in order, into replies that have room for all. No refusal ends it. It takes no memory but that of
/// listings.
pub fn answer_all<const K: usize, D: Disk, L: Ledger>(
    alloc: Global,
    store: &mut Store<K, D>,
    lines: &[Line<K>],
    replies: &mut Vec<Reply<K>>,
    steps: &mut Steps<L>,
)
    requires empty { replies.old.items ≡ [] }
    requires none { vec_len replies.old ≡ 0 }
    requires room { length lines.now ≤ vec_capacity replies.old }
    ensures runs { IsTrue (D.honest store.old.file.disk)
        → (p : Point K)
        → IsStoreAt D.Disk store.old p
        → AnsweredAll D.Disk p lines.now replies.new.items store.old store.new }
    ensures lone { IsTrue (D.honest store.old.file.disk)
        → (s : State K)
        → IsStoreAlone D.Disk store.old s
        → NoneRefused replies.new.items
        → AnsweredAllLone D.Disk s lines.now replies.new.items store.old store.new }
    ensures kinds { AreRepliesTo lines.now replies.new.items }
    ensures shape { store.new.file.books.shape ≡ store.old.file.books.shape }
    ensures changes { Changes D.Disk KeepsLength store.old.file.disk store.new.file.disk }
    ensures faults { All (CountsFault D.Disk store.old.file.disk store.new.file.disk)
        replies.new.items }
{
    session_law::<K>();
    store_law::<K, D>();
    for line in lines {
        let reply = answer_line(alloc, store, line, steps);
        match replies.push(reply) {
            Ok(()) => {}
            Err(_) => unreachable!(),
        }
    }
}
