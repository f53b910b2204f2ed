//! The mount of a volume: its maps are found, its log is made anew, its superblock says that it is mounted, and calls may begin.
#![tactic(auto)]

mod law;
mod mounted;
mod mounting;

pub use law::{
    crashes_of_a_mount_leave_the_tree, mounted_pages_have_the_tree, superblocks_are_seen_whole,
};
pub use mounted::{MountError, MountRefused, Mounted};
pub use mounting::mount;

pub mod mount_maps {
    //! Passed on from `jfs_mount_maps`.

    pub use jfs_mount_maps::{FoundMaps, MapsError, find_maps_on};
}
