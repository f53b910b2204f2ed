//! What a mounted volume has done so far, as plain data: the half beside the pages before the log and the half beside the log, what calls change of them, and what that is to the crash core. Definitions and laws alone.
#![tactic(auto)]

mod freed;
mod law;

pub use freed::FreedPage;
pub use law::{
    acknowledged_survive, changes_are_steps, freed_blocks_stay_busy, fresh_halves_are_sound,
    moments_are_fronts, moves_join,
};
