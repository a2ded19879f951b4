//! Replies as text, line by line.
ghost use Rattle.std.specs.Prelude.{◌≡◌, ◌<◌, ◌≤◌, ◌+◌, ◌++◌, ◌∷◌, [], map, length, slice_index_or, codes};
ghost use Rattle.arrayvec.specs.ArrayVec.{array_vec_len};
ghost use Rattle.grid_model.specs.Text.{key_text, row_text, stat_text, reply_lines, ended};
ghost use Rattle.grid_script.specs.declared.text.TheConstants.{HEX_DIGITS, LINE};

use crate::text::{
    Text, print_bytes, print_data, print_found, print_numbered, print_pair, print_refusal,
};
use grid_types::{Key, Record, Reply, Stat};

/// What stands before number a of a key: a comma, unless it is the first.
fn before(a: usize) -> &'static [u8]
    ensures first { a ≡ 0 → result.now ≡ [] }
    ensures later { 0 < a → result.now ≡ codes "," }
    ensures short { length result.now ≤ 1 }
{
    if a == 0 { b"" } else { b"," }
}

/// The numbers of a key with a comma between two.
fn print_key<const K: usize>(key: &Key<K>, out: &mut Text)
    requires few { K ≤ 4 }
    requires room { array_vec_len out.old + 84 ≤ 4096 }
    ensures items { out.new.items ≡ out.old.items ++ key_text key.now.numbers }
    ensures len { array_vec_len out.new ≤ array_vec_len out.old + 84 }
{
    let numbers = key.numbers();
    for (a, number) in numbers.iter().enumerate() {
        print_numbered(before(a), *number, out);
    }
}

/// Key and data of a record.
fn print_row<const K: usize>(row: &Record<K>, out: &mut Text)
    requires few { K ≤ 4 }
    requires room { array_vec_len out.old + 85 + HEX_DIGITS ≤ 4096 }
    ensures items { out.new.items ≡ out.old.items ++ row_text row.now }
    ensures len { array_vec_len out.new ≤ array_vec_len out.old + 85 + HEX_DIGITS }
{
    print_key(&row.key, out);
    print_bytes(b" ", out);
    print_data(&row.value, out);
}

/// What is counted in the file.
fn print_stat(stat: &Stat, out: &mut Text)
    requires { array_vec_len out.old + 117 ≤ 4096 }
    ensures items { out.new.items ≡ out.old.items ++ stat_text stat.now }
    ensures len { array_vec_len out.new ≤ array_vec_len out.old + 117 }
{
    print_pair(
        b" stat records ",
        stat.records,
        b" cells ",
        stat.cells.into(),
        out,
    );
    print_pair(
        b" buckets ",
        stat.buckets.into(),
        b" free ",
        stat.free.into(),
        out,
    );
}

/// The first line of a reply, without its end.
#[tactic(auto, unfolding(grid_model::specs::Text::reply_lines))]
fn print_first<const K: usize>(reply: &Reply<K>, out: &mut Text)
    requires few { K ≤ 4 }
    requires room { array_vec_len out.old + 60 + HEX_DIGITS ≤ 4096 }
    ensures items { out.new.items ≡ out.old.items ++ slice_index_or (reply_lines reply.now) 0 [] }
    ensures len { array_vec_len out.new ≤ array_vec_len out.old + 60 + HEX_DIGITS }
{
    match reply {
        Reply::Put(answer) => {
            print_numbered(b"@", answer.at, out);
            print_found(b" new", b" old ", &answer.value, out);
        }
        Reply::Removed(answer) => {
            print_numbered(b"@", answer.at, out);
            print_found(b" none", b" gone ", &answer.value, out);
        }
        Reply::Got(answer) => {
            print_numbered(b"@", answer.at, out);
            print_found(b" none", b" = ", &answer.value, out);
        }
        Reply::Listed(answer) => {
            let count = answer.value.list().len();
            print_pair(b"@", answer.at, b" rows ", count as u64, out);
        }
        Reply::Counted(answer) => {
            print_pair(b"@", answer.at, b" count ", answer.value, out);
        }
        Reply::Stood(answer) => {
            print_numbered(b"@", answer.at, out);
            print_stat(&answer.value, out);
        }
        Reply::Rooted(at) => {
            print_numbered(b"@", *at, out);
            print_bytes(b" rooted", out);
        }
        Reply::Refused(why) => print_refusal(why, out),
    }
}

/// The rows that a reply lists, each a line behind the reply's first.
#[tactic(auto, unfolding(grid_model::specs::Text::reply_lines))]
pub fn rows_of<const K: usize>(reply: &Reply<K>) -> &[Record<K>]
    ensures { reply_lines reply.now
        ≡ slice_index_or (reply_lines reply.now) 0 [] ∷ map row_text result.now }
{
    match reply {
        Reply::Listed(answer) => answer.value.list(),
        _ => &[],
    }
}

/// Adds the first line of a reply with its end. `LINE` bytes are enough for any.
pub fn add_first<const K: usize>(reply: &Reply<K>, out: &mut Text)
    requires few { K ≤ 4 }
    requires room { array_vec_len out.old + LINE ≤ 4096 }
    ensures line { out.new.items
        ≡ out.old.items ++ ended (slice_index_or (reply_lines reply.now) 0 []) }
    ensures len { array_vec_len out.new ≤ array_vec_len out.old + LINE }
{
    print_first(reply, out);
    print_bytes(b"\n", out);
}

/// Adds the line of a row that a reply lists, with its end. `LINE` bytes are enough for any.
pub fn add_row<const K: usize>(row: &Record<K>, out: &mut Text)
    requires few { K ≤ 4 }
    requires room { array_vec_len out.old + LINE ≤ 4096 }
    ensures line { out.new.items ≡ out.old.items ++ ended (row_text row.now) }
    ensures len { array_vec_len out.new ≤ array_vec_len out.old + LINE }
{
    print_row(row, out);
    print_bytes(b"\n", out);
}
