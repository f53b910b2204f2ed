//! Where the last name of a path stands, on a volume whose two sets lie in memory: the directory that has it or could have it, and what stands there.
#![tactic(auto)]

mod last_name;

pub use last_name::{occupant, place};
