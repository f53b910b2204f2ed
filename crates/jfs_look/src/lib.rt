//! The file calls that only look, on a volume whose two sets lie in memory: a path is walked, and what stands at its end is told.
#![tactic(auto)]

mod attributes;
mod names;

pub use attributes::stat;
pub use names::list_names;
