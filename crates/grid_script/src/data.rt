//! Data, as scripts write it.
ghost use Rattle.std.specs.Prelude.{◌≡◌};
ghost use Rattle.grid_model.specs.Script.{parsed_data};

use crate::text::HEX_DIGITS;
use grid_types::{Data, LONGEST_DATA};

/// The data that a field writes: two digits for each byte, or a dash for no bytes.
pub fn parse_data(field: &[u8]) -> Option<Data>
    ensures { result ≡ parsed_data field.now }
{
    if field == b"-".as_slice() {
        return Data::new(b"");
    }
    if field.is_empty() || HEX_DIGITS < field.len() {
        return None;
    }
    let mut bytes = [0; LONGEST_DATA];
    let part = &mut bytes[..field.len() / 2];
    match hex::decode_to_slice(field, part) {
        Ok(()) => Data::new(part),
        Err(_) => None,
    }
}
