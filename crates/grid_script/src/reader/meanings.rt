//! What a line says.
ghost use Rattle.std.specs.Prelude.{◌≡◌, ◌≤◌, ◌∷◌, []};
ghost use Rattle.grid_model.specs.Script.{parsed_number, speaks, asks, command, is_comment, meaning};
ghost use Rattle.grid_script.specs.Reading.{meant, words_in};

use crate::number::parse_number;
use crate::reader::pieces::{next_word, without_return};
use crate::reader::requests::{about_of, alone_of, parse_put};
use grid_types::Request;

/// What a line says.
#[derive(Drop)]
pub enum Said<const K: usize> {
    Silent,
    /// Who asks from here on.
    Speaks(u32),
    Asks(Request<K>),
    /// Nothing of the grammar.
    Bad,
}

/// A request, or nothing of the grammar.
fn asks<const K: usize>(request: Option<Request<K>>) -> Said<K>
    ensures { meant result ≡ asks request.entry }
{
    match request {
        Some(request) => Said::Asks(request),
        None => Said::Bad,
    }
}

/// The client that a word names: 1 to 16.
fn speaks<const K: usize>(word: &[u8]) -> Said<K>
    ensures { meant result ≡ speaks (parsed_number word.now) }
{
    match parse_number(word) {
        Some(client) if 1 <= client && client <= 16 => Said::Speaks(client as u32),
        _ => Said::Bad,
    }
}

/// What two words say.
fn pair<const K: usize>(word: &[u8], argument: &[u8]) -> Said<K>
    requires { K ≤ 4 }
    ensures { meant result ≡ command K (word.now ∷ argument.now ∷ []) }
{
    if word == b"client".as_slice() {
        return speaks(argument);
    }
    asks(about_of(word, argument))
}

/// What three words say.
fn triple<const K: usize>(word: &[u8], key: &[u8], digits: &[u8]) -> Said<K>
    requires { K ≤ 4 }
    ensures { meant result ≡ command K (word.now ∷ key.now ∷ digits.now ∷ []) }
{
    if word == b"put".as_slice() {
        return asks(parse_put(key, digits));
    }
    Said::Bad
}

/// What a word says with those behind it.
fn command<const K: usize>(word: &[u8], behind: &[u8]) -> Said<K>
    requires { K ≤ 4 }
    ensures { meant result ≡ command K (word.now ∷ words_in behind.now) }
{
    let Some((second, rest)) = next_word(behind) else {
        return asks(alone_of(word));
    };
    let Some((third, rest)) = next_word(rest) else {
        return pair(word, second);
    };
    match next_word(rest) {
        None => triple(word, second, third),
        Some(_) => Said::Bad,
    }
}

/// Whether a word begins a comment.
fn is_comment(word: &[u8]) -> bool
    ensures { result ≡ is_comment word.now }
{
    matches!(word, [b'#', ..])
}

/// What a line says.
#[tactic(auto, unfolding(grid_model::specs::Script::meaning))]
pub fn meaning_of<const K: usize>(line: &[u8]) -> Said<K>
    requires { K ≤ 4 }
    ensures { meant result ≡ meaning K line.now }
{
    let Some((word, behind)) = next_word(without_return(line)) else {
        return Said::Silent;
    };
    if is_comment(word) {
        return Said::Silent;
    }
    command(word, behind)
}
