//! Maps that agree with the inodes of their volume: one definition of it, for all that cite it.
#![tactic(auto)]

mod law;

pub use law::{blocks_in_use_have_owners, new_maps_agree, sound_maps_agree};
