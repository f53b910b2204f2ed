//! The walk of a path on a volume whose two sets lie in memory: inodes by their numbers, what a name leads to, and the end of a path.
#![tactic(auto)]

mod answer;
mod object;
mod path;

pub use object::{Held, load};
pub use path::{enter, walk};

pub mod bmap {
    //! Passed on from `jfs_bmap`.

    pub use jfs_bmap::{BlockMap, ReserveError};
}

pub mod dtree {
    //! Passed on from `jfs_dtree`.

    pub use jfs_reader::dtree::{DtError, add, find};
}

pub mod imap {
    //! Passed on from `jfs_imap`.

    pub use jfs_imap::InodeMap;
}

pub mod page_tree {
    //! Passed on from `jfs_tree`.

    pub use jfs_tree::{NO_PAGE, tell_page};
}

pub mod plain {
    //! Passed on from `jfs_plain`.

    pub use jfs_reader::plain::Refusal;
}

pub mod reader {
    //! Passed on from `jfs_reader`.

    pub use jfs_reader::{
        ReadError, extents_of, has_extents, has_names, page_of_block, read_part, root_in,
    };
}
