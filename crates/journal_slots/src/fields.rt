//! The fields that an update and its note have in a page.
ghost use Rattle.std.specs.Prelude.{◌≡◌, ◌≤◌, length};
ghost use Rattle.grid_types.specs.declared.sizes.TheConstants.{LONGEST_DATA};
ghost use Rattle.grid_model.specs.Notes.{updated_key};
ghost use Rattle.grid_model.specs.Spellings.{update_code, update_data, note_code, note_attribute, note_bucket, note_boundary};

use grid_types::{Key, LayoutChange, Update};

/// 1 for a put, and 2 for a remove.
pub fn kind<const K: usize>(update: &Update<K>) -> u8
    ensures { result ≡ update_code update.now }
{
    match update {
        Update::Put(_) => 1,
        Update::Remove(_) => 2,
    }
}

/// The key that the update changes.
pub fn key<const K: usize>(update: &Update<K>) -> &Key<K>
    ensures { result.now.numbers ≡ updated_key update.now }
{
    match update {
        Update::Put(row) => &row.key,
        Update::Remove(key) => key,
    }
}

/// The data of a put; a remove has none.
pub fn bytes<const K: usize>(update: &Update<K>) -> &[u8]
    ensures value { result.now ≡ update_data update.now }
    ensures short { length (update_data update.now) ≤ LONGEST_DATA }
{
    match update {
        Update::Put(row) => row.value.bytes(),
        Update::Remove(_) => &[],
    }
}

/// 0 for a plain note, 1 for a cut at an existing boundary, 2 for a cut at a fresh one, and 3 for a merge.
pub fn code(note: &LayoutChange) -> u8
    ensures { result ≡ note_code note.now }
{
    match note {
        LayoutChange::Plain => 0,
        LayoutChange::Cut { cut, .. } => { if cut.fresh { 2 } else { 1 } }
        LayoutChange::Merge { .. } => 3,
    }
}

/// The attribute of a cut, and 0 for other notes.
pub fn attribute(note: &LayoutChange) -> u8
    ensures { result ≡ note_attribute note.now }
{
    match note {
        LayoutChange::Plain => 0,
        LayoutChange::Cut { cut, .. } => cut.attribute,
        LayoutChange::Merge { .. } => 0,
    }
}

/// The new bucket of a cut, the neighbour of a merge, and 0 for a plain note.
pub fn bucket(note: &LayoutChange) -> u32
    ensures { result ≡ note_bucket note.now }
{
    match note {
        LayoutChange::Plain => 0,
        LayoutChange::Cut { right, .. } => *right,
        LayoutChange::Merge { with } => *with,
    }
}

/// The boundary of a cut, and 0 for other notes.
pub fn boundary(note: &LayoutChange) -> u64
    ensures { result ≡ note_boundary note.now }
{
    match note {
        LayoutChange::Plain => 0,
        LayoutChange::Cut { cut, .. } => cut.value,
        LayoutChange::Merge { .. } => 0,
    }
}
