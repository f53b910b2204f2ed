//! The transactions of a rename: a directory gains the new name or leads it to the object, an object that had the name loses it, the object arrives, and its old directory loses the old name.
#![tactic(auto)]

mod entries;
mod leaving;
mod moving;
mod objects;

pub use entries::{Entered, gain_entry, lead_entry, lose_entry};
pub use leaving::{Leaving, leave};
pub use moving::{Moving, move_over, move_to_free};
pub use objects::{arrive, displace, free_if_gone};
