//! What a file call takes of a volume before it changes anything: whether there is space, which inode a new object gets, and the blocks that are reserved for it.
#![tactic(auto)]

mod law;
mod look;
mod reserve;
mod settle;

pub use law::settled_blocks_are_enough;
pub use look::{FreshInode, look_for_inode, look_for_space};
pub use reserve::{Claim, ClaimError, Want, take};
