//! A crash of a mounted volume at any moment, the redo of its disk, and the volume that is found then. A law alone: there is no code that a mistake could be planted in.
#![tactic(auto)]

mod law;

pub use law::crashes_are_redone_to_volumes;
