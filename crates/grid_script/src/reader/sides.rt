//! Sides of queries, as scripts write them.
ghost use Rattle.std.specs.Prelude.{◌≡◌};
ghost use Rattle.std.specs.Option.{option_map};
ghost use Rattle.grid_types.specs.declared.query.Side.TheVariants.{Exactly};
ghost use Rattle.grid_model.specs.Script.{parsed_number, parsed_between, parsed_side};

use crate::number::parse_number;
use crate::reader::pieces::first_piece;
use grid_types::Side;

/// The side that asks for one number.
fn exactly(number: &[u8]) -> Option<Side>
    ensures { result ≡ option_map Exactly (parsed_number number.now) }
{
    parse_number(number).map(Side::Exactly)
}

/// The side from one number to another that is not below it.
fn between(low: &[u8], high: &[u8]) -> Option<Side>
    ensures { result ≡ parsed_between (parsed_number low.now) (parsed_number high.now) }
{
    let Some(lo) = parse_number(low) else {
        return None;
    };
    let Some(hi) = parse_number(high) else {
        return None;
    };
    if lo <= hi {
        Some(Side::Between(lo, hi))
    } else {
        None
    }
}

/// The side that a word writes: a star, a number, or two numbers with two dots between.
pub fn parse_side(word: &[u8]) -> Option<Side>
    ensures { result ≡ parsed_side word.now }
{
    if word == b"*".as_slice() {
        return Some(Side::Any);
    }
    let (low, behind, more) = first_piece(word, b'.');
    if !more {
        return exactly(low);
    }
    let (middle, last, more) = first_piece(behind, b'.');
    if !more || !middle.is_empty() {
        return None;
    }
    let (high, _, more) = first_piece(last, b'.');
    if more { None } else { between(low, high) }
}
