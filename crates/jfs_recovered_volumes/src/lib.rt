//! A crash of a mounted volume, the redo of its disk, and the volume that is found then. A law alone: there is no code that a mistake could be planted in.
#![tactic(auto)]

mod law;

pub use law::crashed_volumes_are_recovered;
