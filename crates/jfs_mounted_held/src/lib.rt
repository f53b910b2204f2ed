//! The volume that a mount leaves is held. Definitions and laws alone.
#![tactic(auto)]

mod law;

pub use law::mounts_are_held;
