//! The parts of a printed line.
ghost use Rattle.std.specs.Prelude.{◌≡◌, ◌≤◌, ◌+◌, ◌++◌, length, decimal, codes};
ghost use Rattle.arrayvec.specs.ArrayVec.{array_vec_len};
ghost use Rattle.grid_script.specs.Fields.{found_text, made_line};
ghost use Rattle.grid_model.specs.Text.{hex_text, numbered, refusal_text, ended, front_line};

use arrayvec::ArrayVec;
use grid_types::{Data, LONGEST_DATA, Refusal};
use itoa::Buffer;

/// Where text is gathered before it is written.
pub type Text = ArrayVec<u8, 4096>;

/// The hexadecimal digits of the longest data.
pub const HEX_DIGITS: usize = 2 * LONGEST_DATA;

/// As many bytes as are enough for any line: a row has four numbers of 20 digits with commas between, a space, its data and
/// its end.
pub const LINE: usize = 112 + HEX_DIGITS;

pub fn print_bytes(bytes: &[u8], out: &mut Text)
    requires { array_vec_len out.old + length bytes.now ≤ 4096 }
    ensures items { out.new.items ≡ out.old.items ++ bytes.now }
    ensures len { array_vec_len out.new ≡ array_vec_len out.old + length bytes.now }
{
    match out.try_extend_from_slice(bytes) {
        Ok(()) => {}
        Err(_) => unreachable!(),
    }
}

/// A word and a number, which has 20 digits at most.
pub fn print_numbered(word: &[u8], n: u64, out: &mut Text)
    requires { array_vec_len out.old + length word.now + 20 ≤ 4096 }
    ensures items { out.new.items ≡ out.old.items ++ numbered word.now n }
    ensures len { array_vec_len out.new ≤ array_vec_len out.old + length word.now + 20 }
{
    print_bytes(word, out);
    let mut buffer = Buffer::new();
    print_bytes(buffer.format(n).as_bytes(), out);
}

/// Data as hexadecimal digits, or as a dash where there is none.
pub fn print_data(value: &Data, out: &mut Text)
    requires { array_vec_len out.old + HEX_DIGITS ≤ 4096 }
    ensures items { out.new.items ≡ out.old.items ++ hex_text value.now }
    ensures len { array_vec_len out.new ≤ array_vec_len out.old + HEX_DIGITS }
{
    let bytes = value.bytes();
    if bytes.is_empty() {
        print_bytes(b"-", out);
        return;
    }
    let mut digits = [0; HEX_DIGITS];
    let part = &mut digits[..2 * bytes.len()];
    match hex::encode_to_slice(bytes, part) {
        Ok(()) => print_bytes(part, out),
        Err(_) => unreachable!(),
    }
}

/// A word where there is no data, or else another word and the data.
pub fn print_found(absent: &[u8], word: &[u8], value: &Option<Data>, out: &mut Text)
    requires { array_vec_len out.old + length absent.now + length word.now + HEX_DIGITS ≤ 4096 }
    ensures items { out.new.items ≡ out.old.items ++ found_text absent.now word.now value.now }
    ensures len { array_vec_len out.new
        ≤ array_vec_len out.old + length absent.now + length word.now + HEX_DIGITS }
{
    match value {
        None => print_bytes(absent, out),
        Some(data) => {
            print_bytes(word, out);
            print_data(data, out);
        }
    }
}

/// A word and a number, and another word and number.
pub fn print_pair(first: &[u8], n: u64, second: &[u8], m: u64, out: &mut Text)
    requires { array_vec_len out.old + length first.now + length second.now + 40 ≤ 4096 }
    ensures items { out.new.items
        ≡ out.old.items ++ (numbered first.now n ++ numbered second.now m) }
    ensures len { array_vec_len out.new
        ≤ array_vec_len out.old + length first.now + length second.now + 40 }
{
    print_numbered(first, n, out);
    print_numbered(second, m, out);
}

/// Why a line was refused. Those refusals that no line meets print nothing.
pub fn print_refusal(refusal: &Refusal, out: &mut Text)
    requires { array_vec_len out.old + 80 ≤ 4096 }
    ensures items { out.new.items ≡ out.old.items ++ refusal_text refusal.now }
    ensures len { array_vec_len out.new ≤ array_vec_len out.old + 80 }
{
    match *refusal {
        Refusal::NoMemory => print_bytes(b"nomemory", out),
        Refusal::ReadFault => print_bytes(b"readfault", out),
        Refusal::WriteFault => print_bytes(b"writefault", out),
        Refusal::Unsure { faults, before } => {
            print_pair(b"unsure faults ", faults, b" before ", before, out);
        }
        Refusal::Stopped { faults, opened } => {
            print_pair(b"stopped faults ", faults, b" opened ", opened, out);
        }
        Refusal::Full { free, need } => {
            print_pair(b"full free ", free.into(), b" need ", need.into(), out);
        }
        Refusal::NoCut { cells, boundaries } => {
            print_pair(
                b"nocut cells ",
                cells.into(),
                b" boundaries ",
                boundaries.into(),
                out,
            );
        }
        Refusal::Damaged { page } => print_numbered(b"damaged page ", page.into(), out),
        Refusal::Worn { count } => print_numbered(b"worn ", count, out),
        Refusal::Foreign
        | Refusal::Version { .. }
        | Refusal::Seats
        | Refusal::BadShape
        | Refusal::BadQuery
        | Refusal::Arity { .. } => {}
    }
}

/// Adds the line with the front.
#[tactic(auto, unfolding(grid_model::specs::Text::front_line))]
pub fn add_front(front: u64, out: &mut Text)
    requires room { array_vec_len out.old + LINE ≤ 4096 }
    ensures line { out.new.items ≡ out.old.items ++ front_line front }
    ensures len { array_vec_len out.new ≤ array_vec_len out.old + LINE }
{
    print_numbered(b"front ", front, out);
    print_bytes(b"\n", out);
}

/// Adds the line that names a client.
pub fn add_client(client: u32, out: &mut Text)
    requires room { array_vec_len out.old + LINE ≤ 4096 }
    ensures line { out.new.items ≡ out.old.items ++ ended (numbered (codes "client ") client) }
    ensures len { array_vec_len out.new ≤ array_vec_len out.old + LINE }
{
    print_numbered(b"client ", client.into(), out);
    print_bytes(b"\n", out);
}

/// Adds the line of a file that was made, with the number of its pages.
pub fn add_made(pages: u64, out: &mut Text)
    requires room { array_vec_len out.old + LINE ≤ 4096 }
    ensures line { out.new.items ≡ out.old.items ++ made_line pages }
    ensures len { array_vec_len out.new ≤ array_vec_len out.old + LINE }
{
    print_numbered(b"made ", pages, out);
    print_bytes(b" pages\n", out);
}
