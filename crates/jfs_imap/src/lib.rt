//! The inode map of a mounted volume: which inodes are in use, and which inode extents are there.
#![tactic(auto)]

mod change;
mod counts;
mod home;
mod inode_map;
mod lists;
mod pages;
mod summary;

pub use inode_map::{InodeMap, Pick};
