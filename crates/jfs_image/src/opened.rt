//! What is kept of an image that was opened.

use crate::view::ListView;
use jfs_reader::InodeMap;
use jfs_super::Super;

/// A view of an image's pages, its superblock and its inode map, and the greatest size of a file, in bytes.
#[derive(Drop)]
pub(crate) struct Opened<'a> {
    pub(crate) view: ListView<'a>,
    pub(crate) map: InodeMap,
    pub(crate) superblock: Super,
    pub(crate) limit: u64,
}
