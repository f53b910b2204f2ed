//! What a mount looks at before it reads a volume.
#![tactic(auto)]

mod bad;
mod blocks;
mod extents;
mod files;
mod maps;
mod mount;
mod numbers;
mod root;

pub use bad::BadMount;
pub use blocks::from_block;
pub use maps::{Maps, Mounted};
pub use mount::{first_broken, map_files, mounted};

pub mod reader {
    //! Passed on from `jfs_reader`.

    pub use jfs_reader::{
        DiskView, ReadError, aggregate_root, has_extents, has_names, page_of_block, read_part,
        root_in,
    };
}
