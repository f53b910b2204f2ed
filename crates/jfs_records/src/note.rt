//! What records name beside their edits.

ghost use Rattle.std.specs.Prelude.{◌≡◌, ◌<◌, length, slice_index_or};

use jfs_bits::{PageKind, Sequence};

/// What the record of an edit names beside it.
#[derive(Clone, Copy, Debug)]
pub struct Note {
    pub fileset: u32,
    /// The first inode of an inode page, the owner of a tree's page, or the object whose blocks these are.
    pub inode: u32,
    /// The kind of a page that goes; lines have their own.
    pub kind: PageKind,
    /// Whether the page was taken by this transaction.
    pub new_page: bool,
}

/// A note for each edit of a transaction, in their order.
pub type Notes = Sequence<Note>;

/// The note of the edit at this place.
pub fn note_at(notes: &[Note], i: usize) -> Note
    requires { i < length notes.now }
    ensures { result ≡ slice_index_or notes.now i result }
{
    notes[i]
}
