//! Calls of many clients on a volume that a turn guards, whatever that volume is.
#![tactic(auto)]

mod alone;
mod both;
mod called;
mod lent;
mod serves;
mod with_log;

pub use called::call_by;
pub use serves::{Given, Serves};
