//! Pages of extent trees that are given longer lists of entries.
#![tactic(auto)]

mod child;
mod entries;
mod refilling;
mod root;
mod storing;

pub use child::push_grown;
pub use entries::items;
pub use refilling::refill;
pub use root::store_root;
pub use storing::{ENTRIES, store};
