//! Keys and queries, as scripts write them.
ghost use Rattle.std.specs.Prelude.{◌≡◌, ◌≤◌};
ghost use Rattle.std.specs.Option.{option_map};
ghost use Rattle.grid_model.specs.Script.{parsed_key, parsed_query};

use crate::reader::parts::parts_of;
use grid_types::{Key, Query, Side};

/// The key that a word writes: K numbers with commas between.
pub fn parse_key<const K: usize>(word: &[u8]) -> Option<Key<K>>
    requires { K ≤ 4 }
    ensures { result
        ≡ option_map (λ numbers. record { numbers = numbers }) (parsed_key K word.now) }
{
    match parts_of(word, 0) {
        Some(numbers) => Some(Key { numbers }),
        None => None,
    }
}

/// The query that a word writes: K sides with commas between.
pub fn parse_query<const K: usize>(word: &[u8]) -> Option<Query<K>>
    requires { K ≤ 4 }
    ensures { result ≡ parsed_query K word.now }
{
    match parts_of(word, Side::Any) {
        Some(sides) => Some(Query { sides }),
        None => None,
    }
}
