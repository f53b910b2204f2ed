//! What redo makes of a page, of the blocks in use and of the inode extents, by the committed transactions of a log; and the inodes in use then.
#![tactic(auto)]

mod blocks;
mod extents;
mod index;
mod inodes;
mod law;
mod page;
mod pages;

pub use blocks::redo_blocks;
pub use extents::redo_extents;
pub use inodes::inodes_in_use;
pub use law::pages_are_redone_again;
pub use pages::redo_pages;
