//! What a checker finds on a volume.
#![tactic(auto)]

mod finding;
mod law;
mod order;

pub use finding::{Finding, FindingKind};
pub use law::{
    canonical_pages_pass, clean_volumes_are_sound, findings_are_one_list,
    sound_volumes_are_consistent_and_tidy,
};
pub use order::{condense, put_in_order};

pub mod mount_rules {
    //! Passed on from `jfs_mount`.

    pub use jfs_mount::{BadMount, Maps, Mounted, first_broken, from_block, mounted};
}

pub mod reader {
    //! Passed on from `jfs_reader`.

    pub use jfs_mount::reader::{
        DiskView, ReadError, aggregate_root, has_extents, has_names, page_of_block, root_in,
    };
}
