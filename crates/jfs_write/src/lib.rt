//! The file calls write and fill, on a volume whose two sets lie in memory: blocks for holes are reserved, the file's blocks are written, and then one transaction gives the file its extents.
#![tactic(auto)]

mod answer;
mod data;
mod file;
mod look;
mod make;
mod reserve;
mod tree;

pub use answer::Stop;
pub use file::{fill, write};
pub use make::Written;
pub use reserve::write_at;
