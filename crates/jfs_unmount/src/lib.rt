//! The end of a mounted volume: it is unmounted, or its disk is handed back as it is.
#![tactic(auto)]

mod law;
mod leaving;
mod unmounting;

pub use law::{
    mounts_know_the_files_of_maps, settled_pages_have_the_tree, syncpoints_leave_what_is_known,
};
pub use leaving::leave;
pub use unmounting::{Unended, unmount};

pub mod mounted {
    //! Passed on from `jfs_mounted`.

    pub use jfs_mounted::{MountError, Mounted, mount};
}
