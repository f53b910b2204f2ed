//! The ways of a file's blocks down its tree of extents, looked at before the blocks are written.
#![tactic(auto)]

mod along;
mod below;
mod leading;

pub use along::look_along;
