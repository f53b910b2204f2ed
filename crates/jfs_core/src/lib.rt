//! The core of crash safety: what may be written when, and what a crash then leaves.
#![tactic(auto)]

mod act;
mod allow;
mod block;
mod copy;
mod crash;
mod entry;
mod law;
mod replay;
mod run;
mod state;
mod step;

pub use law::{
    acknowledged_entries_survive, agreement_is_equality, refused_is_not_allowed,
    steps_are_device_calls, steps_keep_cores_sound,
};
pub use run::run_steps;
pub use state::CoreState;
pub use step::{FaultOf, RunError, Step, StepRefused, Why};
