//! The two maps of a volume as a mount finds them, and the law that joins them to the image: the volume that the pages and these maps are is the one that the pages spell.
#![tactic(auto)]

mod find;
mod found;
mod law;
mod placed;
mod places;
mod read;

pub use find::{find_maps, find_maps_on};
pub use found::{FoundMaps, MapsError};
pub use law::found_maps_give_the_image;
pub use read::inode_map_with;

pub mod mount_rules {
    //! Passed on from `jfs_mount`.

    pub use jfs_sets::mount_rules::{BadMount, Maps, Mounted, from_block, map_files};
}

pub mod reader {
    //! Passed on from `jfs_reader`.

    pub use jfs_sets::reader::{DiskView, page_of_block};
}

pub mod sets {
    //! Passed on from `jfs_sets`.

    pub use jfs_sets::used_blocks;
}
