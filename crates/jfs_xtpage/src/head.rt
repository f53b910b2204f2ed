//! The header of a page of an extent tree.

use jfs_bits::{Pxd, Rule};

/// Where a page stands: a root in an inode, which has 288 bytes; a page of the volume, which has 4,096; or a small root of 96 bytes.
#[derive(Clone, Copy, PartialEq, Eq, Debug)]
pub enum XtForm {
    Root,
    Full,
    Small,
}

/// The header of 32 bytes. `next` and `prev` are the neighbours on the level, `flag` tells root, leaf or inner page in its low three bits,
/// `nextindex` is the slot behind the last entry (entries begin at slot 2), `maxentry` the number of slots, `at` the page's own place.
#[derive(Clone, Copy, PartialEq, Eq, Debug)]
pub struct XtHead {
    pub next: u64,
    pub prev: u64,
    pub flag: u8,
    pub nextindex: u16,
    pub maxentry: u16,
    pub at: Pxd,
}

/// The first rule that a page breaks.
#[derive(Clone, Copy, PartialEq, Eq, Debug)]
pub struct BadXt {
    pub rule: Rule,
}
