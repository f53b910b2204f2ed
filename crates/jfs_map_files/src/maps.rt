//! The two maps of a mounted volume.

use jfs_bmap::BlockMap;
use jfs_imap::InodeMap;

/// The two maps of a mounted volume, and the greatest size of a file in bytes, which the log's length decides.
#[derive(Drop)]
pub struct Maps {
    pub blocks: BlockMap,
    pub inodes: InodeMap,
    pub file_limit: u64,
}
