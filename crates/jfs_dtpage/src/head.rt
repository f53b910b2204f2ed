//! The header of a page of a directory tree.

use jfs_bits::{Pxd, Rule};

/// Where a page stands: a root in an inode, which has 288 bytes, or a page of the volume, which has 4,096.
#[derive(Clone, Copy, PartialEq, Eq, Debug)]
pub enum DtForm {
    Root,
    Full,
}

/// The header, which takes the first slot. `flag` tells root, leaf or inner page in its low three bits, `nextindex` is the number of entries,
/// `freecnt` the number of free slots and `freelist` the first of them.
#[derive(Clone, Copy, PartialEq, Eq, Debug)]
pub struct DtHead {
    pub flag: u8,
    pub nextindex: u8,
    pub freecnt: u8,
    pub freelist: u8,
    pub place: Place,
}

/// What the header has by where its page stands.
#[derive(Clone, Copy, PartialEq, Eq, Debug)]
pub enum Place {
    /// A root names the parent directory's inode.
    InInode {
        idotdot: u32,
    },
    /// A page names its neighbours on the level, its number of slots, the slot where the sorted table begins, and its own place.
    OnVolume {
        next: u64,
        prev: u64,
        maxslot: u8,
        stblindex: u8,
        at: Pxd,
    },
}

/// The first rule that a page breaks.
#[derive(Clone, Copy, PartialEq, Eq, Debug)]
pub struct BadDt {
    pub rule: Rule,
}

/// An entry takes more slots than are free.
#[derive(Clone, Copy, PartialEq, Eq, Debug)]
pub struct PageFull {
    pub free: u32,
    pub need: u32,
}

/// An entry of a leaf, or of an inner page.
#[derive(Clone, Copy, Debug)]
pub enum DtEntry<'a> {
    /// An inode's name.
    Leaf { inode: u32, name: &'a [u16] },
    /// A child, and the key from which on its names stand.
    Inner { at: Pxd, name: &'a [u16] },
}
