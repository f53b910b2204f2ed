//! The bytes of each page of both maps, as functions of what the maps keep. It has no code: its law is a function with an empty body.
#![tactic(auto)]

mod law;

pub use law::{block_map_pages_are_there, inode_map_pages_are_there};
