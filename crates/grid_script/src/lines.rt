//! Where a text is parted: at the first of some byte, and at the end of its first line.
ghost use Rattle.std.specs.Prelude.{◌≡◌, ◌<◌, ◌≤◌, ◌++◌, ◌∷◌, length, IfSome, IfNone};
ghost use Rattle.grid_model.specs.Script.{lines_of};
ghost use Rattle.grid_script.specs.Fields.{Without};

use memchr::memchr;

/// What stands in front of the first such byte, and what stands behind it.
pub fn split_first(text: &[u8], byte: u8) -> Option<(&[u8], &[u8])>
    ensures found { IfSome result (λ p.
        (text.now ≡ p.0.now ++ byte ∷ p.1.now) × Without byte p.0.now) }
    ensures none { IfNone result (Without byte text.now) }
{
    match memchr(byte, text) {
        Some(at) => Some((&text[..at], &text[at + 1..])),
        None => None,
    }
}

/// The first line of a text, and what stands behind its end.
pub fn first_line(text: &[u8]) -> (&[u8], &[u8])
    requires some { 1 ≤ length text.now }
    ensures lines { lines_of text.now ≡ result.0.now ∷ lines_of result.1.now }
    ensures shorter { length result.1.now < length text.now }
{
    match split_first(text, b'\n') {
        Some(parts) => parts,
        None => (text, &text[text.len()..]),
    }
}
