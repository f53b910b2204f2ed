//! What a crash leaves of the pages of a mounted volume's maps, and what redo finds in them. Laws alone: there is no code that a mistake could be planted in.
#![tactic(auto)]

mod law;

pub use law::{extents_have_four_blocks, items_are_of_the_history, maps_say_their_sizes};
