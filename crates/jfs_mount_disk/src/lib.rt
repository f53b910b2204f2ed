//! What a mount writes: the disk is cut before its log, the log is made anew, and the superblock gets state 1.
#![tactic(auto)]

mod ready;

pub use ready::{BeginError, Begun, NotBegun, begin};
