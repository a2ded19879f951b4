//! Scripts that a seed generates.
ghost use Rattle.std.specs.Prelude.{◌≡◌, ◌<◌, ◌≤◌, ◌+◌, ◌*◌, ◌++◌, IfOk, OnOk};
ghost use Rattle.grid_types.specs.declared.sizes.TheConstants.{MOST_ATTRIBUTES, MOST_CLIENTS};
ghost use Rattle.grid_gen.specs.declared.draws.TheConstants.{MODULUS};
ghost use Rattle.grid_gen.specs.declared.generator.TheConstants.{MOST_ROUNDS};
ghost use Rattle.grid_gen.specs.Draws.{nth_draw};
ghost use Rattle.grid_gen.specs.Generated.{round_lines, generated};

use crate::draws::Draws;
use crate::lines::draw_line;
use grid_script::Script;
use grid_types::Line;
use std::alloc::{AllocError, Global};

/// The most rounds of a script.
pub const MOST_ROUNDS: u32 = 100_000;

/// Adds the lines of a round, one for each client. They are those of round 0, where the number that was drawn last is the seed.
fn add_round<const K: usize>(
    draws: &mut Draws,
    clients: u32,
    list: &mut Vec<Line<K>>,
) -> Result<(), AllocError>
    requires few { clients ≤ MOST_CLIENTS }
    ensures last { OnOk result (draws.new.last ≡ nth_draw draws.old.last (clients * (K + 2))) }
    ensures lines { OnOk result (list.new.items
        ≡ list.old.items ++ round_lines K draws.old.last clients 0) }
{
    for c in 0..clients {
        list.push(draw_line(draws, c + 1))?;
    }
    Ok(())
}

/// The script that a seed generates: in each round a line for each client. Its only error is want of memory.
pub fn generate<const K: usize>(
    alloc: Global,
    seed: u32,
    rounds: u32,
    clients: u32,
) -> Result<Script<K>, AllocError>
    requires some { 1 ≤ K }
    requires few { K ≤ MOST_ATTRIBUTES }
    requires some_seed { 1 ≤ seed }
    requires low_seed { seed < MODULUS }
    requires some_rounds { 1 ≤ rounds }
    requires few_rounds { rounds ≤ MOST_ROUNDS }
    requires some_clients { 1 ≤ clients }
    requires few_clients { clients ≤ MOST_CLIENTS }
    ensures { IfOk result (λ script. script ≡ generated K seed rounds clients) }
{
    let mut draws = Draws { last: seed };
    let mut list = Vec::new(alloc);
    for _round in 0..rounds {
        add_round(&mut draws, clients, &mut list)?;
    }
    Ok(Script::of(list))
}
