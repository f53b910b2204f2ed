//! The entries of a mounted volume are a legal history of a plain file tree, whoever calls, also behind a fault of the disk. Laws alone: there is no code that a mistake could be planted in.
#![tactic(auto)]

mod law;

pub use law::{
    calls_go_on_legally, calls_lent_the_log_go_on_legally, calls_without_memory_end_it,
    entries_handed_out_leave_it_legal, entries_handed_out_leave_it_over,
    histories_that_go_on_are_legal, histories_that_go_on_may_end, pages_at_home_leave_it_legal,
    pages_at_home_leave_it_over, settled_volumes_leave_it_legal, settled_volumes_leave_it_over,
    volumes_that_serve_begin_legally,
};

pub mod unmount {
    //! Passed on from `jfs_unmount` and `jfs_mounted`.

    pub use jfs_served::unmount::{MountError, Mounted, leave, mount, unmount};
}

pub mod call {
    //! Passed on from `jfs_served`.

    pub use jfs_served::call::{Outcome, call_without_log};
}

pub mod volume_calls {
    //! Passed on from `jfs_served`.

    pub use jfs_served::volume_calls::{PointText, commit};
}
