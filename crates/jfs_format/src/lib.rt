//! A new volume: an empty file system over all pages of a disk.
#![tactic(auto)]

mod areas;
mod block_map;
mod formatter;
mod inode_map;
mod inodes;
mod law;
mod layout;
mod superblock;
mod tables;
mod volume;
mod write;

pub use formatter::{FormatError, format};
pub use law::{free_are_counted, new_inodes_are_accepted, new_superblock_is_accepted, roots_read};
pub use layout::Layout;
