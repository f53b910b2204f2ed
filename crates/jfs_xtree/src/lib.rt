//! Extent trees: which blocks of the volume a file's blocks are.
#![tactic(auto)]

mod check;
mod children;
mod cut_leaf;
mod cut_page;
mod cutting;
mod entries;
mod error;
mod find;
mod form;
mod free_below;
mod inserting;
mod links;
mod listing;
mod met;
mod parts;
mod place;
mod root;
mod way_law;
mod write_law;

pub use check::is_leaf;
pub use children::child_entry;
pub use cutting::cut_to;
pub use entries::Reached;
pub use error::XtError;
pub use find::{handed_on, lookup, root_form};
pub use form::XtPages;
pub use inserting::add;
pub use listing::extents;
pub use root::new_root;
pub use way_law::way_leads_to_the_extent;
pub use write_law::{writing_is_block_by_block, writing_stands_in_place};
