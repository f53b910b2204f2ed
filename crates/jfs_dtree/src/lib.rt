//! Directories: names by trees of pages whose root stands in the directory's inode. (JFS White Paper, directory organization.)
#![tactic(auto)]

mod adding;
mod check;
mod children;
mod deep;
mod entries;
mod entry;
mod error;
mod form;
mod law;
mod lead;
mod leaf;
mod links;
mod listing;
mod lookup;
mod loss;
mod move_down;
mod reached;
mod removing;
mod replacing;
mod room;
mod root;
mod split;
mod split_parts;

pub use adding::add;
pub use entry::{DirEntry, NameKey};
pub use error::DtError;
pub use form::DtPages;
pub use law::{empty_directories_have_no_pages, way_leads_to_the_name};
pub use listing::list;
pub use lookup::find;
pub use reached::Reached;
pub use removing::remove;
pub use replacing::replace;
pub use room::is_deep;
pub use root::{new_root, parent, set_parent};
