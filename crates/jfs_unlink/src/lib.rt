//! The file calls that take a name away, on a volume whose two sets lie in memory: unlink and rmdir.
#![tactic(auto)]

mod ends;
mod gone;
mod names;
mod rmdir;

pub use ends::{Ends, find_ends};
pub use gone::{drop_named, leave_named};
pub use names::unlink;
pub use rmdir::remove_directory;
