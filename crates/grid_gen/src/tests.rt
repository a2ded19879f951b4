//! Generated scripts, beside texts that write their beginnings.
ghost use Rattle.std.specs.Prelude.{◌≤◌, ◌<◌};
ghost use Rattle.grid_types.specs.declared.sizes.TheConstants.{MOST_ATTRIBUTES, MOST_CLIENTS};
ghost use Rattle.grid_gen.specs.declared.draws.TheConstants.{MODULUS};
ghost use Rattle.grid_gen.specs.declared.generator.TheConstants.{MOST_ROUNDS};

use crate::*;
use grid_script::read_script;
use grid_types::Line;
use std::alloc::Global;

/// Whether lines begin with these requests, asked by so many clients in turn.
fn begin_with<const K: usize>(lines: &[Line<K>], asked: &[Line<K>], clients: u32) -> bool {
    let mut client = 1;
    for (line, want) in lines.iter().zip(asked) {
        if line.client != client || line.request != want.request {
            return false;
        }
        client = if client < clients { client + 1 } else { 1 };
    }
    asked.len() <= lines.len()
}

/// How many lines a seed generates, and how many of them are puts, where the requests begin with those of a text, and the
/// clients take turns.
fn told<const K: usize>(
    alloc: Global,
    seed: u32,
    rounds: u32,
    clients: u32,
    text: &str,
) -> Option<(usize, usize)>
    requires some { 1 ≤ K }
    requires few { K ≤ MOST_ATTRIBUTES }
    requires some_seed { 1 ≤ seed }
    requires low_seed { seed < MODULUS }
    requires some_rounds { 1 ≤ rounds }
    requires few_rounds { rounds ≤ MOST_ROUNDS }
    requires some_clients { 1 ≤ clients }
    requires few_clients { clients ≤ MOST_CLIENTS }
{
    let Ok(script) = generate::<K>(alloc, seed, rounds, clients) else {
        return None;
    };
    let Ok(written) = read_script::<K>(alloc, text.as_bytes()) else {
        return None;
    };
    if begin_with(script.lines(), written.lines(), clients) {
        Some((script.lines().len(), count_puts(script.lines())))
    } else {
        None
    }
}

#[test]
fn generates(rt: HostRuntime) {
    let alloc = rt.alloc();
    let table = [
        (
            told::<2>(alloc, 1, 2, 1, "get 794,886\nput 683,161 32f1f059\n"),
            (2, 1),
        ),
        (
            told::<1>(
                alloc,
                3,
                2,
                2,
                "put 382 66eb5dd3\nput 829 48d74369\nput 868 64f4ba49\nget 113\n",
            ),
            (4, 3),
        ),
        (
            told::<4>(
                alloc,
                2_147_483_644,
                1,
                3,
                "put 265,636,30,818 3728bc96\nget 779,574,448,534\nput 494,555,277,34 01e33567\n",
            ),
            (3, 2),
        ),
        (
            told::<2>(alloc, 7, 200, 2, "put 558,614 1ee23a71\n"),
            (400, 293),
        ),
    ];
    for (i, (found, want)) in table.iter().enumerate() {
        assert_eq!(rt; *found, Some(*want), "{i}");
    }
}
