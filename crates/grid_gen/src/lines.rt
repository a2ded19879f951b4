//! Lines that are made of draws.
ghost use Rattle.std.specs.Prelude.{◌≡◌, ◌+◌, ◌≤◌, map};
ghost use Rattle.std.specs.Int.{w32, to_be_bytes};
ghost use Rattle.grid_gen.specs.Draws.{nth_draw, draws_from};
ghost use Rattle.grid_gen.specs.Generated.{key_number, drawn_request, drawn_line};

use crate::draws::Draws;
use grid_types::{Data, Key, Line, Record, Request};

/// What the number for a line's kind is divided by.
const KINDS: u32 = 4;

/// The remainder that makes a line a get; each other makes it a put, so about three lines of four are puts.
const GET: u32 = 3;

/// How many numbers an attribute of a key may have: few enough that keys come again.
const KEY_NUMBERS: u64 = 1000;

/// The data that are made of a number: its four bytes, the highest first.
fn data_of(number: u32) -> Data
    ensures { result ≡ to_be_bytes w32 number }
{
    match Data::new(&number.to_be_bytes()) {
        Some(bytes) => bytes,
        None => unreachable!(),
    }
}

/// The key that is made of the next K draws.
fn draw_key<const K: usize>(draws: &mut Draws) -> Key<K>
    ensures key { result.numbers ≡ map key_number (draws_from draws.old.last 1 K) }
    ensures last { draws.new.last ≡ nth_draw draws.old.last K }
{
    let mut numbers = [0; K];
    for a in 0..K {
        numbers[a] = u64::from(draws.next()) % KEY_NUMBERS;
    }
    Key { numbers }
}

/// The request that is made of a number for its kind, a key and a number for its data. A get makes no use of the last, which is
/// drawn all the same.
fn request_of<const K: usize>(kind: u32, key: Key<K>, number: u32) -> Request<K>
    ensures { result ≡ drawn_request kind key.entry number }
{
    if kind % KINDS == GET {
        return Request::Get(key);
    }
    let value = data_of(number);
    Request::Put(Record { key, value })
}

/// The line of a client that is made of the next K + 2 draws.
pub fn draw_line<const K: usize>(draws: &mut Draws, client: u32) -> Line<K>
    ensures line { result ≡ drawn_line K draws.old.last client 1 }
    ensures last { draws.new.last ≡ nth_draw draws.old.last (K + 2) }
{
    let kind = draws.next();
    let key = draw_key(draws);
    let number = draws.next();
    let request = request_of(kind, key, number);
    Line { client, request }
}
