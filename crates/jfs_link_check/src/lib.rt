//! Names, link counts and parents of a volume, checked.
#![tactic(auto)]

mod census;
mod counts;
mod links;
mod notes;
mod uses;

pub use census::{Census, count_names};
pub use links::check_links;
pub use notes::NameNotes;
pub use uses::{Use, Uses, uses_of};

pub mod object_check {
    //! Passed on from `jfs_object_check`.

    pub use jfs_object_check::{check_object, check_root, count_extents};
}

pub mod owners {
    //! Passed on from `jfs_owners`.

    pub use jfs_object_check::owners::{Owners, count_taken};
}
