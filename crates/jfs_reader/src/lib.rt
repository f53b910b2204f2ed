//! What the pages of a volume hold, read page by page: the extents of the aggregate's files, the inode map, and objects; and a disk as a view of pages.
#![tactic(auto)]

mod blocks;
mod error;
mod files;
mod map;
mod object;
mod used;
mod view;

pub use blocks::{page_of_block, read_part};
pub use error::ReadError;
pub use files::{aggregate_root, file_extents, root_in};
pub use map::InodeMap;
pub use object::{extents_of, has_extents, has_names, names_of, read_inode};
pub use view::DiskView;

pub mod dtree {
    //! Passed on from `jfs_dtree`.

    pub use jfs_meaning::dtree::{DtError, add, find};
}

pub mod plain {
    //! Passed on from `jfs_plain`.

    pub use jfs_meaning::plain::Refusal;
}

pub mod xtree {
    //! Passed on from `jfs_xtree`.

    pub use jfs_meaning::xtree::XtError;
}
