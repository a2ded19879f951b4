//! Texts taken apart: pieces between bytes, and words.
ghost use Rattle.std.specs.Prelude.{◌≡◌, ◌≢◌, ◌<◌, ◌∷◌, [], false, length, slice_index, IfSome, IfNone};
ghost use Rattle.grid_model.specs.Script.{pieces, without_return};
ghost use Rattle.grid_script.specs.Reading.{pieces_left, words_in};

use crate::lines::split_first;

/// The first piece of a text, what stands behind it, and whether there is more: a further piece, which may be empty.
pub fn first_piece(text: &[u8], byte: u8) -> (&[u8], &[u8], bool)
    ensures pieces { pieces byte text.now ≡ result.0.now ∷ pieces_left byte result.2 result.1.now }
    ensures end { result.2 ≡ false → result.1.now ≡ [] }
{
    match split_first(text, byte) {
        Some((piece, after)) => (piece, after, true),
        None => (text, b"", false),
    }
}

/// A text from its first byte on that is no space.
fn without_spaces(text: &[u8]) -> &[u8]
    ensures words { words_in result.now ≡ words_in text.now }
    ensures first { 0 < length result.now → slice_index result.now 0 ≢ 32 }
{
    for (i, byte) in text.iter().enumerate() {
        if *byte != b' ' {
            return &text[i..];
        }
    }
    b""
}

/// The first word of a text, and what stands behind it.
pub fn next_word(text: &[u8]) -> Option<(&[u8], &[u8])>
    ensures found { IfSome result (λ p. words_in text.now ≡ p.0.now ∷ words_in p.1.now) }
    ensures none { IfNone result (words_in text.now ≡ []) }
{
    let rest = without_spaces(text);
    if rest.is_empty() {
        return None;
    }
    let (word, after, _) = first_piece(rest, b' ');
    Some((word, after))
}

/// A line without one byte 13 at its end.
pub fn without_return(line: &[u8]) -> &[u8]
    ensures { result.now ≡ without_return line.now }
{
    match line.strip_suffix(b"\r".as_slice()) {
        Some(front) => front,
        None => line,
    }
}
