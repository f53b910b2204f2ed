//! The file call readlink, on a volume whose two sets lie in memory: a path is walked, and the target of the symbolic link at its end is read.
#![tactic(auto)]

mod link;
mod stored;

pub use link::read_link;
