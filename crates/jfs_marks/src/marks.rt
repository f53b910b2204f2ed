//! What an entry changes of the inode map.

use jfs_bits::Pxd;

/// What an entry changes of the inode map: an inode extent that is added first, then an inode that is taken, then one that is given back.
#[derive(Clone, Copy, PartialEq, Eq, Debug)]
pub struct InodeMarks {
    pub extent: Option<Pxd>,
    pub taken: Option<u32>,
    pub freed: Option<u32>,
}
