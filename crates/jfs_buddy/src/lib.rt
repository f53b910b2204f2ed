//! Buddy trees over slices of bytes: ranks of runs of blocks, under inner nodes of four children.
#![tactic(auto)]

mod join;
mod law;
mod tree;

pub use join::{clear_tree, find_run, set_leaf};
pub use law::trees_agree;
pub use tree::rank_of_value;
