//! What a call makes of a mounted volume that is kept. Definitions and laws alone.
#![tactic(auto)]

mod law;

pub use law::calls_keep_volumes;
