//! Steps of file calls that give, take and lead names: one object of a volume changes, and with it one node of the plain tree.
#![tactic(auto)]

mod balance;
mod remove;

pub use balance::own_after;
pub use remove::{Removed, remove_on_top};

pub mod dtree {
    //! Passed on from `jfs_dtree`.

    pub use jfs_meaning::dtree::{DtError, is_deep, remove};
}

pub mod page_tree {
    //! Passed on from `jfs_tree`.

    pub use jfs_tree::NO_PAGE;
}

pub mod xtree {
    //! Passed on from `jfs_xtree`.

    pub use jfs_meaning::xtree::{XtError, cut_to};
}
