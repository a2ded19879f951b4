//! Words of several parts with commas between.
ghost use Rattle.std.specs.Prelude.{◌≡◌, ◌≤◌, List, ℕ, Option};
ghost use Rattle.grid_model.specs.Script.{parsed_number, parsed_side};
ghost use Rattle.grid_script.specs.Reading.{values_of};

use crate::number::parse_number;
use crate::reader::pieces::first_piece;
use crate::reader::sides::parse_side;
use grid_types::Side;

/// What a part of a word may write.
pub trait Part: Copy {
    /// The value of a part, where it writes one.
    ghost value: { List ℕ → Option Self };

    fn of(part: &[u8]) -> Option<Self>
        ensures { result ≡ value part.now };
}

impl Part for u64 {
    ghost value = { parsed_number };

    fn of(part: &[u8]) -> Option<u64> {
        parse_number(part)
    }
}

impl Part for Side {
    ghost value = { parsed_side };

    fn of(part: &[u8]) -> Option<Side> {
        parse_side(part)
    }
}

/// The values of K parts with commas between; a value that is not yet read is blank.
pub fn parts_of<T: Part, const K: usize>(word: &[u8], blank: T) -> Option<[T; K]>
    requires { K ≤ 4 }
    ensures { result ≡ values_of K T.value word.now }
{
    let mut values = [blank; K];
    let mut rest = word;
    let mut more = true;
    for a in 0..K {
        if !more {
            return None;
        }
        let (piece, after, further) = first_piece(rest, b',');
        let Some(value) = T::of(piece) else {
            return None;
        };
        values[a] = value;
        rest = after;
        more = further;
    }
    if more { None } else { Some(values) }
}
