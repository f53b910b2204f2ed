//! The file call that reads bytes, on a volume whose two sets lie in memory.
#![tactic(auto)]

mod block;
mod bytes;
mod file;

pub use bytes::stored_bytes;
pub use file::read_bytes;

pub mod reader {
    //! Passed on from `jfs_reader`.

    pub use jfs_way::reader::{has_names, page_of_block, root_in};
}

pub mod way {
    //! Passed on from `jfs_way`.

    pub use jfs_way::{Held, walk};
}
