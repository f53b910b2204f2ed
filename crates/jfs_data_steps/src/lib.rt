//! Data of files that is written in place before a transaction: which blocks these are, and what a volume is after both.
#![tactic(auto)]

mod law;
mod pages;

pub use law::{
    data_is_put_before, file_is_put_before, file_is_set_with_data, object_is_set_with_data,
    other_blocks_stay,
};
pub use pages::{DataList, DataPage};

pub mod lead_steps {
    //! Passed on from `jfs_lead_steps`.

    pub use jfs_loss::lead_steps::own_after;
}

pub mod reader {
    //! Passed on from `jfs_reader`.

    pub use jfs_loss::reader::has_names;
}

pub mod steps {
    //! Passed on from `jfs_steps`.

    pub use jfs_loss::steps::put_inode;
}
