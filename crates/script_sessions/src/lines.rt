//! A line of a script, answered over a store.
ghost use Rattle.std.specs.Prelude.{◌≡◌, IsTrue};
ghost use Rattle.grid_types.specs.declared.request.Request.TheVariants as ask;
ghost use Rattle.disk_trait.specs.Calls.{Changes};
ghost use Rattle.grid_model.specs.Lone.{State};
ghost use Rattle.checkpoints.specs.Disks.{KeepsLength};
ghost use Rattle.client_sessions.specs.Points.{Point};
ghost use Rattle.grid_store.specs.Stores.{IsStoreAt, IsStoreAlone};
ghost use Rattle.grid_store.specs.Answered.{IsAnswered, IsAnsweredLone};
ghost use Rattle.script_sessions.specs.Replies.{CountsFault, IsReplyTo, UnlessRefused};
ghost use Rattle.script_sessions.specs.Sessions.{RepliesTo};

use disk_trait::{Disk, Steps};
use grid_store::Store;
use grid_types::{Key, Line, Query, Record, Reply, Request};
use std::alloc::Global;
use std::sync::ledger::Ledger;

/// The reply to a put.
fn reply_to_put<const K: usize, D: Disk, L: Ledger>(
    store: &mut Store<K, D>,
    row: &Record<K>,
    steps: &mut Steps<L>,
) -> Reply<K>
    ensures { RepliesTo D.Disk (ask.Put row.now) result store.old store.new }
{
    match store.put(row, steps) {
        Ok(answer) => Reply::Put(answer),
        Err(refusal) => Reply::Refused(refusal),
    }
}

/// The reply to a remove.
fn reply_to_remove<const K: usize, D: Disk, L: Ledger>(
    store: &mut Store<K, D>,
    key: &Key<K>,
    steps: &mut Steps<L>,
) -> Reply<K>
    ensures { RepliesTo D.Disk (ask.Remove key.now) result store.old store.new }
{
    match store.remove(key, steps) {
        Ok(answer) => Reply::Removed(answer),
        Err(refusal) => Reply::Refused(refusal),
    }
}

/// The reply to a get.
fn reply_to_get<const K: usize, D: Disk, L: Ledger>(
    store: &mut Store<K, D>,
    key: &Key<K>,
    steps: &mut Steps<L>,
) -> Reply<K>
    ensures { RepliesTo D.Disk (ask.Get key.now) result store.old store.new }
{
    match store.get(key, steps) {
        Ok(answer) => Reply::Got(answer),
        Err(refusal) => Reply::Refused(refusal),
    }
}

/// The reply to a listing.
fn reply_to_list<const K: usize, D: Disk, L: Ledger>(
    alloc: Global,
    store: &mut Store<K, D>,
    query: &Query<K>,
    steps: &mut Steps<L>,
) -> Reply<K>
    ensures { RepliesTo D.Disk (ask.List query.now) result store.old store.new }
{
    match store.list(alloc, query, steps) {
        Ok(answer) => Reply::Listed(answer),
        Err(refusal) => Reply::Refused(refusal),
    }
}

/// The reply to a count.
fn reply_to_count<const K: usize, D: Disk, L: Ledger>(
    store: &mut Store<K, D>,
    query: &Query<K>,
    steps: &mut Steps<L>,
) -> Reply<K>
    ensures { RepliesTo D.Disk (ask.Count query.now) result store.old store.new }
{
    match store.count(query, steps) {
        Ok(answer) => Reply::Counted(answer),
        Err(refusal) => Reply::Refused(refusal),
    }
}

/// The reply to who asks what is counted.
fn reply_to_stat<const K: usize, D: Disk>(store: &mut Store<K, D>) -> Reply<K>
    ensures { RepliesTo D.Disk ask.Stat result store.old store.new }
{
    Reply::Stood(store.stat())
}

/// The reply to a checkpoint.
fn reply_to_checkpoint<const K: usize, D: Disk, L: Ledger>(
    store: &mut Store<K, D>,
    steps: &mut Steps<L>,
) -> Reply<K>
    ensures { RepliesTo D.Disk ask.Checkpoint result store.old store.new }
{
    match store.checkpoint(steps) {
        Ok(place) => Reply::Rooted(place),
        Err(refusal) => Reply::Refused(refusal),
    }
}

/// The reply to a request.
fn reply_to<const K: usize, D: Disk, L: Ledger>(
    alloc: Global,
    store: &mut Store<K, D>,
    request: &Request<K>,
    steps: &mut Steps<L>,
) -> Reply<K>
    ensures { RepliesTo D.Disk request.now result store.old store.new }
{
    match request {
        Request::Put(row) => reply_to_put(store, row, steps),
        Request::Remove(key) => reply_to_remove(store, key, steps),
        Request::Get(key) => reply_to_get(store, key, steps),
        Request::List(query) => reply_to_list(alloc, store, query, steps),
        Request::Count(query) => reply_to_count(store, query, steps),
        Request::Stat => reply_to_stat(store),
        Request::Checkpoint => reply_to_checkpoint(store, steps),
    }
}

/// Answers a line. After a refusal the store goes on; memory is taken for a listing's records alone.
pub fn answer_line<const K: usize, D: Disk, L: Ledger>(
    alloc: Global,
    store: &mut Store<K, D>,
    line: &Line<K>,
    steps: &mut Steps<L>,
) -> Reply<K>
    ensures answers { IsTrue (D.honest store.old.file.disk)
        → (p : Point K)
        → IsStoreAt D.Disk store.old p
        → IsAnswered D.Disk p line.now.request result store.old store.new }
    ensures lone { IsTrue (D.honest store.old.file.disk)
        → (s : State K)
        → IsStoreAlone D.Disk store.old s
        → UnlessRefused result
        (IsAnsweredLone D.Disk s line.now.request result store.old store.new) }
    ensures kind { IsReplyTo line.now.request result }
    ensures shape { store.new.file.books.shape ≡ store.old.file.books.shape }
    ensures changes { Changes D.Disk KeepsLength store.old.file.disk store.new.file.disk }
    ensures fault { CountsFault D.Disk store.old.file.disk store.new.file.disk result }
{
    reply_to(alloc, store, &line.request, steps)
}
