//! What a mount leaves of the pages of a volume. Definitions and laws alone.
#![tactic(auto)]

mod law;

pub use law::mounts_keep_pages;
