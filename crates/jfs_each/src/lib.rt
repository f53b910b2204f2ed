//! The inodes in use of a volume, one after the other.
#![tactic(auto)]

mod each;

pub use each::{EachInode, each_inode};
