//! What the numbers of a form mean, and which form a verb has.
ghost use Rattle.std.specs.Prelude.{◌≡◌, ◌↔◌, IsTrue, IfSome, IfNone, string_bytes};
ghost use Rattle.grid_types.specs.declared.shape.Shape.{Shape};
ghost use Rattle.grid_types.specs.Shapes.{is_shape};
ghost use Rattle.grid_words.specs.declared.command.Command.{Command};
ghost use Rattle.grid_words.specs.Commands.{size_numbers, WriteShape, IsGeneration, verb_of, file_of, Write};

use crate::command::Command;
use grid_gen::{MODULUS, MOST_ROUNDS};
use grid_types::{MOST_BOUNDARIES, MOST_CELLS, MOST_CLIENTS, Shape};

/// The shape with these sizes and bounds, where it is lawful.
fn lawful_shape(sizes: [u32; 4], boundaries: u32, cells: u32) -> Option<Shape>
    ensures found { IfSome result (λ s. IsTrue (is_shape s) × (size_numbers s ≡ sizes)
        × (s.boundaries ≡ boundaries) × (s.cells ≡ cells)) }
    ensures none { IfNone result ((s : Shape) → IsTrue (is_shape s) → size_numbers s ≡ sizes
        → s.boundaries ≡ boundaries → s.cells ≡ cells → ⊥) }
{
    let [k, capacity, pages, slots] = sizes;
    let Ok(k) = u8::try_from(k) else {
        return None;
    };
    let Ok(capacity) = u16::try_from(capacity) else {
        return None;
    };
    let shape = Shape {
        k,
        capacity,
        pages,
        slots,
        boundaries,
        cells,
    };
    if shape.lawful() { Some(shape) } else { None }
}

/// The lawful shape that numbers write.
fn written_shape(numbers: &[u32]) -> Option<Shape>
    ensures found { IfSome result (λ s. WriteShape numbers.now s × IsTrue (is_shape s)) }
    ensures none { IfNone result ((s : Shape) → WriteShape numbers.now s
        → IsTrue (is_shape s) → ⊥) }
{
    match *numbers {
        [k, capacity, pages, slots] => lawful_shape(
            [k, capacity, pages, slots],
            MOST_BOUNDARIES as u32,
            MOST_CELLS as u32,
        ),
        [k, capacity, pages, slots, boundaries, cells] => {
            lawful_shape([k, capacity, pages, slots], boundaries, cells)
        }
        _ => None,
    }
}

/// Whether a seed, a number of rounds and a number of clients are within their limits.
fn is_generation(seed: u32, rounds: u32, clients: u32) -> bool
    ensures { IsTrue result ↔ IsGeneration seed rounds clients }
{
    let seeded = 1 <= seed && seed < MODULUS;
    let timed = 1 <= rounds && rounds <= MOST_ROUNDS;
    let manned = 1 <= clients && clients <= MOST_CLIENTS as u32;
    seeded && timed && manned
}

/// The command on a file that a verb and numbers write.
pub fn written_command(verb: &str, file: String, numbers: &[u32]) -> Option<Command>
    ensures found { IfSome result (λ c. (verb_of c ≡ verb.now)
        × (file_of c ≡ string_bytes file) × Write numbers.now c) }
    ensures none { IfNone result ((c : Command) → verb_of c ≡ verb.now
        → Write numbers.now c → ⊥) }
{
    match (verb.as_bytes(), numbers) {
        (b"make", _) => {
            let Some(shape) = written_shape(numbers) else {
                return None;
            };
            Some(Command::Make { file, shape })
        }
        (b"run", []) => Some(Command::Run { file }),
        (b"check", []) => Some(Command::Check { file }),
        (b"dump", []) => Some(Command::Dump { file }),
        (b"gen", &[seed, rounds, clients]) if is_generation(seed, rounds, clients) => Some(
            Command::Gen {
                file,
                seed,
                rounds,
                clients: clients as u8,
            },
        ),
        _ => None,
    }
}
