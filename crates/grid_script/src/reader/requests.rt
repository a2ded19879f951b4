//! What the words of a line ask.
ghost use Rattle.std.specs.Prelude.{◌≡◌, ◌≤◌};
ghost use Rattle.grid_model.specs.Script.{parsed_key, parsed_data, parsed_put, alone_of, about_of};

use crate::data::parse_data;
use crate::reader::queries::{parse_key, parse_query};
use grid_types::{Record, Request};

/// What a command of one word asks.
pub fn alone_of<const K: usize>(word: &[u8]) -> Option<Request<K>>
    requires { K ≤ 4 }
    ensures { result ≡ alone_of K word.now }
{
    if word == b"stat".as_slice() {
        return Some(Request::Stat);
    }
    if word == b"checkpoint".as_slice() {
        return Some(Request::Checkpoint);
    }
    None
}

/// What a command with one argument asks.
pub fn about_of<const K: usize>(word: &[u8], argument: &[u8]) -> Option<Request<K>>
    requires { K ≤ 4 }
    ensures { result ≡ about_of K word.now argument.now }
{
    if word == b"get".as_slice() {
        return parse_key(argument).map(Request::Get);
    }
    if word == b"remove".as_slice() {
        return parse_key(argument).map(Request::Remove);
    }
    if word == b"list".as_slice() {
        return parse_query(argument).map(Request::List);
    }
    if word == b"count".as_slice() {
        return parse_query(argument).map(Request::Count);
    }
    None
}

/// The put of a key and data.
pub fn parse_put<const K: usize>(key: &[u8], digits: &[u8]) -> Option<Request<K>>
    requires { K ≤ 4 }
    ensures { result ≡ parsed_put (parsed_key K key.now) (parsed_data digits.now) }
{
    let Some(key) = parse_key(key) else {
        return None;
    };
    let Some(value) = parse_data(digits) else {
        return None;
    };
    Some(Request::Put(Record { key, value }))
}
