//! An inode of 512 bytes in its page: its fields both ways, and its rules.
#![tactic(auto)]

mod fields;
mod read;
mod write;

pub use fields::Dinode;
pub use read::{BadInode, inode_in, read_dinode};
pub use write::write_dinode;
