//! The replies of calls on a mounted volume are those of a plain file tree. Laws alone: there is no code that a mistake could be planted in.
#![tactic(auto)]

mod law;

pub use law::{
    acknowledged_entries_leave_the_tree, asked_volumes_keep_the_tree,
    calls_given_back_leave_the_tree, calls_that_change_nothing_are_plain_steps,
    changing_calls_are_plain_steps, entries_alone_leave_the_tree,
    handed_out_entries_leave_the_tree, mounted_volumes_hold_the_tree, pages_at_home_leave_the_tree,
    refused_calls_are_plain_steps, replies_are_a_legal_history, syncpoints_leave_the_tree,
    torn_data_leaves_the_rest, transactions_are_steps_or_leave_the_tree, trees_stay_and_stay,
    unfinished_calls_leave_the_tree, unmounted_volumes_leave_their_image,
};

pub mod call {
    //! Passed on from `jfs_call`.

    pub use jfs_call::{Outcome, call_without_log};
}

pub mod volume_calls {
    //! Passed on from `jfs_volume_calls`.

    pub use jfs_call::volume_calls::{PointText, commit};
}

pub mod unmount {
    //! Passed on from `jfs_unmount` and `jfs_mounted`.

    pub use jfs_unmount::mounted::{MountError, Mounted, mount};
    pub use jfs_unmount::{leave, unmount};
}
