//! Worked scripts, right and wrong.

use crate::*;
use grid_types::{Data, Key, Line, Query, Record, Request, Side};

/// How many lines of a script of two attributes ask something, or the number of the faulty line.
fn told(outcome: Result<Script<2>, ScriptFault>) -> Result<usize, u64> {
    match outcome {
        Ok(script) => Ok(script.lines().len()),
        Err(ScriptFault::Line(line)) => Err(line),
        Err(ScriptFault::NoMemory) => Err(u64::MAX),
    }
}

/// Scripts of two attributes: how many lines ask something, or which one is the first fault.
const SCRIPTS: [(&str, Result<usize, u64>); 90] = [
    ("", Ok(0)),
    ("\n", Ok(0)),
    ("put   3,7    00fF  \n", Ok(1)),
    ("put 0,0 -\n", Ok(1)),
    ("get 0,18446744073709551615\n", Ok(1)),
    ("client 1\nclient 16\n", Ok(0)),
    ("get 0,18446744073709551616\n", Err(1)),
    ("get 0,99999999999999999999999999\n", Err(1)),
    ("get 3,07\n", Err(1)),
    ("get 00,7\n", Err(1)),
    ("get 3\n", Err(1)),
    ("get 3,7,1\n", Err(1)),
    ("get 3,,7\n", Err(1)),
    ("get 3,7,\n", Err(1)),
    ("get ,7\n", Err(1)),
    ("get 3, 7\n", Err(1)),
    ("get +3,7\n", Err(1)),
    ("get 3,-7\n", Err(1)),
    ("get 3,*\n", Err(1)),
    ("get 3,7..7\n", Err(1)),
    ("get 3,7 7\n", Err(1)),
    ("get\n", Err(1)),
    ("get\t3,7\n", Err(1)),
    ("get 3,7\t\n", Err(1)),
    ("Get 3,7\n", Err(1)),
    ("STAT\n", Err(1)),
    ("get \u{e9},7\n", Err(1)),
    ("\u{ff}\n", Err(1)),
    ("put 3,7\n", Err(1)),
    ("put 3,7 a\n", Err(1)),
    ("put 3,7 abc\n", Err(1)),
    ("put 3,7 0g\n", Err(1)),
    ("put 3,7 --\n", Err(1)),
    ("put 3,7 - -\n", Err(1)),
    (
        "put 3,7 0123456789012345678901234567890123456789abcdefabcdefabcdefabcdefABCDEFABCDEFABCD\n",
        Ok(1),
    ),
    (
        "put 3,7 0123456789012345678901234567890123456789abcdefabcdefabcdefabcdefABCDEFABCDEFABCDEF\n",
        Err(1),
    ),
    ("remove 3,*\n", Err(1)),
    ("list 5..4,*\n", Err(1)),
    ("list 1...2,*\n", Err(1)),
    ("list 1..2..3,*\n", Err(1)),
    ("list ..5,*\n", Err(1)),
    ("list 5..,*\n", Err(1)),
    ("list *..5,*\n", Err(1)),
    ("list 1..05,*\n", Err(1)),
    ("list 1.2,*\n", Err(1)),
    ("list **,*\n", Err(1)),
    ("list *\n", Err(1)),
    ("list *,*,*\n", Err(1)),
    ("list\n", Err(1)),
    ("stat 1\n", Err(1)),
    ("stat #\n", Err(1)),
    ("checkpoint now\n", Err(1)),
    ("client 0\n", Err(1)),
    ("client 17\n", Err(1)),
    ("client 01\n", Err(1)),
    ("client\n", Err(1)),
    ("client 1 1\n", Err(1)),
    ("stat\r\r\n", Err(1)),
    ("stat\r \n", Err(1)),
    ("st\rat\n", Err(1)),
    ("# note\n\nget x\nput y\n", Err(3)),
    ("get 3,7\n", Ok(1)),
    ("get 3,7", Ok(1)),
    ("get 0,18446744073709551615\nput 0,0 -\n", Ok(2)),
    ("get 3,+7\n", Err(1)),
    ("get  3,7\n", Ok(1)),
    ("get 3,7 \n", Ok(1)),
    ("get 3,7\r\n", Ok(1)),
    ("get 3,7\n\nget 3,7\n", Ok(2)),
    ("# two gets\nget 3,7\n client 1\nget 3,7\n", Ok(2)),
    ("put 3\nlist *,*\n", Err(1)),
    ("client 2\nclient 1\nget 3,7\n", Ok(1)),
    ("client 17\nget 3,7\n", Err(1)),
    ("put 3,7 \n", Err(1)),
    ("\n\n   \n\r\n \r\nstat\n\n", Ok(1)),
    ("# a note\n#\n  #stat\n#\tget\r1,2 \u{e9}\nstat\n#", Ok(1)),
    ("stat", Ok(1)),
    ("stat\r", Ok(1)),
    ("  stat  \r\n", Ok(1)),
    ("checkpoint\n", Ok(1)),
    (
        "get 3,7\n\nremove 3,7\nlist *,*\ncount 3,0..9\nput 3,7 0a",
        Ok(5),
    ),
    ("list 3,*\ncount 5..5,0..18446744073709551615\n", Ok(2)),
    ("stat\nstats", Err(2)),
    ("list *,*\nput 3\n", Err(2)),
    ("get 3,7\nget 3,7\nput 3,7 -\nremove 3,7", Ok(4)),
    ("client 2\n\nstat\r\n get 1;1\n", Err(3)),
    ("get 3,7\nclient 2\nget 3,7\n", Err(3)),
    ("get 3,7\n\nclient 2\nget 3,7\nput 3\n", Err(4)),
    ("client 2\nput 3\nget 3,7\n", Err(2)),
    ("stat\nclient 16\n# note\ncheckpoint\n", Err(4)),
];

#[test]
fn judges_scripts(rt: HostRuntime) {
    for (text, want) in SCRIPTS {
        assert_eq!(rt;
            told(read_script(rt.alloc(), text.as_bytes())),
            want,
            "{text}"
        );
    }
}

#[test]
fn reads_lines(rt: HostRuntime) {
    let text =
        "put 3,18446744073709551615 00fFa1\r\nclient 16\nclient 1\n  get 12,0\n# note\nremove 0,0\nlist *,5..9\nclient 2\n client 1 \ncount 7,*\nstat\ncheckpoint";
    let script = read_script::<2>(rt.alloc(), text.as_bytes()).expect(&rt, "a script");
    let wanted = [
        Line {
            client: 1,
            request: Request::Put(Record {
                key: Key {
                    numbers: [3, u64::MAX],
                },
                value: Data::new(&[0, 255, 161]).unwrap_or_default(),
            }),
        },
        Line {
            client: 1,
            request: Request::Get(Key { numbers: [12, 0] }),
        },
        Line {
            client: 1,
            request: Request::Remove(Key { numbers: [0, 0] }),
        },
        Line {
            client: 1,
            request: Request::List(Query {
                sides: [Side::Any, Side::Between(5, 9)],
            }),
        },
        Line {
            client: 1,
            request: Request::Count(Query {
                sides: [Side::Exactly(7), Side::Any],
            }),
        },
        Line {
            client: 1,
            request: Request::Stat,
        },
        Line {
            client: 1,
            request: Request::Checkpoint,
        },
    ];
    assert_eq!(rt; script.lines(), wanted.as_slice());
}
