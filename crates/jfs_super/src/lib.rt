//! The superblock: its fields, its rules, and the geometry that it gives.
#![tactic(auto)]

mod fields;
mod layout;
mod read;
mod write;

pub use fields::{Geometry, Super, VolumeState};
pub use layout::geometry;
pub use read::{BadSuper, read_super};
pub use write::write_super;
