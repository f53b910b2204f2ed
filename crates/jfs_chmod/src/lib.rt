//! The file call chmod on a volume whose two sets lie in memory: a path is walked, and its transaction puts the inode with other permission bits.
#![tactic(auto)]

mod change;

pub use change::change_mode;
pub use jfs_steps::put_inode;
