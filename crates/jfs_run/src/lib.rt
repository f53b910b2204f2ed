//! Clients' scripts on a volume: it is mounted, a server does their calls, all clients at once, and it is unmounted or left.
#![tactic(auto)]

mod clients;
mod count;
mod ending;
mod run;
mod serving;
mod telling;

pub use run::{Ran, RunEnd, run_lines};
