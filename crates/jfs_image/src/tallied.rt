//! What is counted of an image.

use jfs_owners::Owners;

/// Who owns the blocks, and the lowest inode that is free in an extent that is there, of the numbers that were counted.
#[derive(Drop)]
pub(crate) struct Tally {
    pub(crate) owners: Owners,
    pub(crate) free: Option<u32>,
}
