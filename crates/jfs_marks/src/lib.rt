//! What a file call's transaction changes beside its edits: what its records name, and what it makes of the inode map.
#![tactic(auto)]

mod behind;
mod changes;
mod founded;
mod loggable;
mod marking;
mod marks;
mod notes;
mod owner;
mod standing;

pub use behind::frees_behind;
pub use loggable::is_loggable;
pub use marking::{Marking, inode_marks};
pub use marks::InodeMarks;
pub use notes::notes_of;

pub mod data_steps {
    //! Passed on from `jfs_data_steps`.

    pub use jfs_data_steps::{DataList, DataPage};
}
