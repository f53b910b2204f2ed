//! A mount of an image that can be kept for a redo. Laws alone: there is no code that a mistake could be planted in.
#![tactic(auto)]

mod law;

pub use law::{checked_volumes_are_keepable, keepable_mounts_are_held};
