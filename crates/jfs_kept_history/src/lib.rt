//! A served history whose volume is kept for a redo. Definitions and laws alone: there is no code that a mistake could be planted in.
#![tactic(auto)]

mod law;

pub use law::{
    acknowledgements_are_kept, calls_are_kept, checked_images_are_keepable,
    crashes_are_redone_to_the_history, failed_mounts_leave_volumes, groups_are_kept,
    halted_volumes_are_kept, handed_entries_are_kept, homes_are_kept, known_points_are_kept,
    like_volumes_have_the_same_nodes, logs_have_what_was_taken,
    lost_groups_are_redone_to_the_history, maps_are_kept, mounts_are_kept,
    mounts_leave_whole_pages, points_are_kept, redone_images_are_keepable,
    rested_disks_are_redone_to_the_history, syncs_are_kept, syncs_settle_volumes,
    unmounted_images_are_keepable,
};

pub mod unmount {
    //! Passed on from `jfs_legal`.

    pub use jfs_legal::unmount::{MountError, Mounted, leave, mount, unmount};
}

pub mod call {
    //! Passed on from `jfs_legal`.

    pub use jfs_legal::call::{Outcome, call_without_log};
}
