//! Names, lists of names, and paths.

use jfs_bits::Sequence;

/// A name: its 16-bit units. (JFS White Paper, directory organization.)
pub type Name = Sequence<u16>;

/// A name in a directory, and the number of the inode that it names.
#[derive(Debug, Drop)]
pub struct NameEntry {
    pub name: Name,
    pub inode: u32,
}

/// The names of a directory.
pub type NameList = Sequence<NameEntry>;

/// The names from the root directory on; the empty list is the root directory.
pub type Path = Sequence<Name>;
