//! The page cache: pages of a disk as they were read, and the changes that haven't gone home.
#![tactic(auto)]

mod cache;
mod changes;
mod dirty;
mod error;
mod kept;
mod read;
mod view;
mod wanted;
mod write;

pub use cache::PageCache;
pub use dirty::Dirty;
pub use error::HomeError;
