//! An entry whose records can be logged, and whose marks fit the inode map, stays within its volume. Definitions and laws alone.
#![tactic(auto)]

mod law;

pub use law::{entries_stay_within, entries_tell_their_part_alone};
