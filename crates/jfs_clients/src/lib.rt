//! Clients at once: each does the lines of its script in a thread of its own.
#![tactic(auto)]

mod caller;
mod clients;

pub use caller::Caller;
pub use clients::run_clients;
