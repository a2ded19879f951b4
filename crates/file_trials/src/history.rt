//! What is asked of a file, and the plain table behind so many of its updates.
use grid_types::{Data, Rows};

/// How many attributes the file has.
pub const ATTRIBUTES: usize = 2;

/// What is asked of a store: keys of two numbers, and data of one byte.
#[derive(Clone, Copy)]
pub enum Ask {
    Put([u64; ATTRIBUTES], u8),
    Remove([u64; ATTRIBUTES]),
    Root,
}

/// What the first session asks.
pub const FIRST: [Ask; 4] = [
    Ask::Put([3, 7], 1),
    Ask::Put([5, 1], 2),
    Ask::Root,
    Ask::Put([4, 4], 3),
];

/// What the second session asks: a cut and a refinement before a root step, and a merge behind it.
pub const SECOND: [Ask; 9] = [
    Ask::Put([9, 9], 4),
    Ask::Put([6, 4], 5),
    Ask::Put([1, 1], 6),
    Ask::Root,
    Ask::Put([2, 9], 7),
    Ask::Put([9, 9], 8),
    Ask::Remove([6, 4]),
    Ask::Remove([9, 9]),
    Ask::Put([5, 1], 9),
];

/// How many updates the two sessions make.
pub const LAST: u64 = 11;

/// The keys of the updates.
const KEYS: [[u64; ATTRIBUTES]; 7] = [[1, 1], [2, 9], [3, 7], [4, 4], [5, 1], [6, 4], [9, 9]];

/// The byte of each key, where it has one.
pub type Table = [Option<u8>; 7];

/// From now on the key has this byte, or none: whether it is one of the keys.
fn set_byte(table: &mut Table, numbers: [u64; ATTRIBUTES], byte: Option<u8>) -> bool {
    for (slot, key) in table.iter_mut().zip(KEYS) {
        if key == numbers {
            *slot = byte;
            return true;
        }
    }
    false
}

/// Makes the updates among what is asked, up to that place: the place behind them.
fn play(table: &mut Table, asks: &[Ask], from: u64, front: u64) -> u64 {
    let mut place = from;
    for ask in asks {
        if place >= front {
            return place;
        }
        match *ask {
            Ask::Put(numbers, byte) => {
                set_byte(table, numbers, Some(byte));
            }
            Ask::Remove(numbers) => {
                set_byte(table, numbers, None);
            }
            Ask::Root => continue,
        }
        place += 1;
    }
    place
}

/// The plain table behind so many updates.
pub fn plain_table(front: u64) -> Table {
    let mut table = [None; 7];
    let behind = play(&mut table, &FIRST, 0, front);
    play(&mut table, &SECOND, behind, front);
    table
}

/// The table that a listing has; none where it is no table of these keys.
pub fn table_of(rows: &Rows<ATTRIBUTES>) -> Option<Table> {
    let mut table = [None; 7];
    for row in rows.list() {
        let byte = byte_of(&row.value)?;
        if !set_byte(&mut table, row.key.numbers, Some(byte)) {
            return None;
        }
    }
    Some(table)
}

/// Whether the table stood behind some of the updates.
pub fn was_there(table: &Table) -> bool {
    for front in 0..LAST + 1 {
        if plain_table(front) == *table {
            return true;
        }
    }
    false
}

/// The one byte of data; none where there is not just one.
fn byte_of(value: &Data) -> Option<u8> {
    match value.bytes() {
        [byte] => Some(*byte),
        _ => None,
    }
}
