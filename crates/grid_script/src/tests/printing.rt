//! Printed replies.

use crate::*;
use grid_types::{Answer, Data, Key, Record, Refusal, Reply, Rows, Stat};
use std::alloc::{AllocError, Global};
use std::test::Fail;

/// Two records.
fn rows(alloc: Global) -> Result<Rows<2>, AllocError> {
    let mut rows = Rows::new(alloc);
    rows.push(Record {
        key: Key { numbers: [1, 2] },
        value: Data::new(&[10, 255]).unwrap_or_default(),
    })?;
    rows.push(Record {
        key: Key {
            numbers: [u64::MAX, 0],
        },
        value: Data::default(),
    })?;
    Ok(rows)
}

/// An answer with data, or with none.
fn found(at: u64, bytes: Option<&[u8]>) -> Answer<Option<Data>> {
    let value = match bytes {
        Some(bytes) => Data::new(bytes),
        None => None,
    };
    Answer { at, value }
}

/// Replies of each kind, and their texts.
fn replies(alloc: Global) -> Result<[(Reply<2>, &'static str); 12], AllocError> {
    let stat = Stat {
        records: 1,
        cells: 2,
        buckets: 3,
        free: 4,
    };
    let listed = Answer {
        at: 9,
        value: rows(alloc)?,
    };
    let refusal = Refusal::NoCut {
        cells: 6,
        boundaries: 8,
    };
    Ok([
        (Reply::Put(found(0, None)), "@0 new\n"),
        (
            Reply::Put(found(u64::MAX, Some(&[10, 255]))),
            "@18446744073709551615 old 0aff\n",
        ),
        (Reply::Removed(found(3, None)), "@3 none\n"),
        (Reply::Removed(found(4, Some(&[0]))), "@4 gone 00\n"),
        (Reply::Got(found(3, None)), "@3 none\n"),
        (Reply::Got(found(3, Some(b""))), "@3 = -\n"),
        (
            Reply::Listed(listed),
            "@9 rows 2\n1,2 0aff\n18446744073709551615,0 -\n",
        ),
        (Reply::Counted(Answer { at: 9, value: 12 }), "@9 count 12\n"),
        (
            Reply::Stood(Answer { at: 7, value: stat }),
            "@7 stat records 1 cells 2 buckets 3 free 4\n",
        ),
        (Reply::Rooted(5), "@5 rooted\n"),
        (Reply::Refused(refusal), "nocut cells 6 boundaries 8\n"),
        (Reply::Refused(Refusal::Worn { count: 5 }), "worn 5\n"),
    ])
}

/// The lines of a reply, behind the line of a client and before that of the front.
fn printed(alloc: Global, reply: &Reply<2>) -> Result<Vec<u8>, AllocError> {
    let mut text = Vec::new(alloc);
    let mut lines = Text::new();
    add_client(12, &mut lines);
    add_first(reply, &mut lines);
    text.extend_from_slice(lines.as_slice())?;
    for row in rows_of(reply) {
        lines.clear();
        add_row(row, &mut lines);
        text.extend_from_slice(lines.as_slice())?;
    }
    lines.clear();
    add_front(21, &mut lines);
    text.extend_from_slice(lines.as_slice())?;
    Ok(text)
}

#[test]
fn prints_replies(rt: HostRuntime) -> Result<(), Fail> {
    for (reply, text) in replies(rt.alloc())? {
        let want = format!(in rt.alloc(); "client 12\n{text}front 21\n")?;
        let told = printed(rt.alloc(), &reply)?;
        assert_eq!(rt; told.as_slice(), want.as_bytes());
    }
    Ok(())
}
