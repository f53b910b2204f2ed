//! The blocks that a write to a file takes: for what the file holds, and for pages of its extent tree.
#![tactic(auto)]

mod law;
mod reserve;
mod settle;

pub use law::settled_blocks_are_enough;
pub use reserve::{FileBlocks, FileWant, reserve_blocks};

pub mod claim {
    //! Passed on from `jfs_claim`.

    pub use jfs_claim::{ClaimError, look_for_space};
}
