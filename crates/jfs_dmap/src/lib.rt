//! Dmap pages of the block map, kept canonical in place.
#![tactic(auto)]

mod change;
mod find;
mod law;
mod layout;
mod page;
mod read;
mod words;

pub use change::{dmap_clear, dmap_mark};
pub use find::dmap_find;
pub use law::pages_agree;
pub use page::dmap_canonical;
pub use read::{dmap_free, dmap_is_taken, dmap_root};
