//! A call whose entry joined with its transaction keeps a mounted volume held. Definitions and laws alone.
#![tactic(auto)]

mod law;

pub use law::joined_calls_keep_volumes_held;
