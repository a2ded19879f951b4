//! Command lines, beside what they ask.

use crate::*;
use std::alloc::{AllocError, Global};

/// What a line asks, as it is printed by `Debug`. Its words have spaces between; the program's name is put in front.
fn told(alloc: Global, line: &str) -> Result<String, AllocError> {
    let mut words = Vec::new(alloc);
    words.push(String::from_str(alloc, "grid")?)?;
    for word in line.split(' ') {
        words.push(String::from_str(alloc, word)?)?;
    }
    match read_command(alloc, Ok(words.into_iter())) {
        Ok(command) => format!(in alloc; "{command:?}"),
        Err(why) => format!(in alloc; "{why:?}"),
    }
}

#[test]
fn reads_lines(rt: HostRuntime) {
    let alloc = rt.alloc();
    let table = [
        (
            "make a 1 2 8 1",
            "Make { file: \"a\", shape: Shape { k: 1, capacity: 2, pages: 8, slots: 1, boundaries: 1000, cells: 1000000 } }",
        ),
        (
            "make a 4 48 65536 4000 1 7",
            "Make { file: \"a\", shape: Shape { k: 4, capacity: 48, pages: 65536, slots: 4000, boundaries: 1, cells: 7 } }",
        ),
        ("make a 1 49 8 1", "Words"),
        ("make a 257 2 8 1", "Words"),
        ("make a 01 2 8 1", "Words"),
        ("make a 1 2 8", "Words"),
        ("make a 1 2 8 1 1000", "Words"),
        ("make a 1 2 8 1 1000 1 1", "Words"),
        ("run a", "Run { file: \"a\" }"),
        ("check b/c", "Check { file: \"b/c\" }"),
        ("dump a", "Dump { file: \"a\" }"),
        ("run a 1", "Words"),
        ("run", "Words"),
        ("run -a", "Words"),
        ("run ", "Words"),
        ("help a", "Words"),
        (
            "gen a 1 1 1",
            "Gen { file: \"a\", seed: 1, rounds: 1, clients: 1 }",
        ),
        (
            "gen a 2147483646 100000 16",
            "Gen { file: \"a\", seed: 2147483646, rounds: 100000, clients: 16 }",
        ),
        ("gen a 0 1 1", "Words"),
        ("gen a 2147483647 1 1", "Words"),
        ("gen a 1 100001 1", "Words"),
        ("gen a 1 1 17", "Words"),
        ("gen a +1 1 1", "Words"),
        ("gen a 4294967297 1 1", "Words"),
    ];
    for (line, want) in table {
        let found = told(alloc, line).expect(&rt, "memory");
        assert_eq!(rt; found.as_str(), want, "{line}");
    }
}
