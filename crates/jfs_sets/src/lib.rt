//! The sets of a volume that was mounted, read from its maps: the blocks and the inodes in use, and the inode extents.
#![tactic(auto)]

mod parts;
mod sets;

pub use sets::{inode_extents, used_blocks, used_inodes};

pub mod mount_rules {
    //! Passed on from `jfs_mount`.

    pub use jfs_mount::{BadMount, Maps, Mounted, from_block, map_files, mounted};
}

pub mod reader {
    //! Passed on from `jfs_reader`.

    pub use jfs_mount::reader::{DiskView, page_of_block};
}
