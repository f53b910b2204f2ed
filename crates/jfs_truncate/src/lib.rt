//! The file call truncate, on a volume whose two sets lie in memory: a file's blocks past its new end are freed, and the rest of its last block is zeroed in place.
#![tactic(auto)]

mod answer;
mod change;
mod file;
mod tail;

pub use change::{Truncated, resize};
pub use file::truncate;

pub mod data_steps {
    //! Passed on from `jfs_data_steps`.

    pub use jfs_data_steps::{DataList, DataPage};
}

pub mod read {
    //! Passed on from `jfs_read`.

    pub use jfs_read::read_bytes;
}
