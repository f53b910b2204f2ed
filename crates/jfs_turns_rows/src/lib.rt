//! A small volume and log that threads pass round, and tests of the turns over them.
#![tactic(auto)]

mod at_once;
mod client;
#[cfg(test)]
mod rows;
mod small;

pub use at_once::crowd;
pub use client::{SmallPass, SmallTurns, Step, append_line, take_group, work};
pub use small::{Line, SmallLog, SmallVolume};
