//! The two maps of a mounted volume, and their files: where the pages of these lie, and whether they are as the maps in memory.
#![tactic(auto)]

mod map_file;
mod maps;

pub use map_file::{MapFile, MapFiles};
pub use maps::Maps;
