//! The room of a mounted volume, by the two maps in memory.
#![tactic(auto)]

mod law;

pub use law::{
    added_extents_bring_the_fresh_inode, directories_are_deep_by_their_roots,
    fresh_inode_is_picked, held_directories_are_deep_by_their_roots, room_is_known_by_maps,
    runs_are_free_once_settled, unowned_blocks_are_free,
};

pub mod bmap {
    //! Passed on from `jfs_bmap`.

    pub use jfs_way::bmap::{BlockMap, ReserveError};
}
