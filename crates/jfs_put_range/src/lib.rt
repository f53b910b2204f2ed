//! A range of a file's blocks that is written into its tree of extents.
#![tactic(auto)]

mod call;
mod clash;
mod descent;
mod full;
mod leaf;
mod linked;
mod open;
mod part;
mod root;
mod skip;
mod span;

pub use call::put_range;
