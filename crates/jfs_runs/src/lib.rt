//! Runs of blocks, as the block map knows them, and single blocks, as trees of pages take them: they are one and the same.
#![tactic(auto)]

mod law;

pub use law::{runs_are_blocks, what_is_left_is_reserved};
