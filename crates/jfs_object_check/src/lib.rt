//! What a checker finds of one inode in use.
#![tactic(auto)]

mod attributes;
mod law;
mod levels;
mod nodes;
mod note;
mod object;
mod root;
mod rules;
mod tally;
mod trees;

pub use law::{findings_are_of_objects, thin_findings_are_of_objects};
pub use levels::count_extents;
pub use note::note_if;
pub use object::{Soundness, check_object};
pub use root::check_root;
pub use trees::page_named;

pub mod findings {
    //! Passed on from `jfs_findings`.

    pub use jfs_owners::findings::{Finding, FindingKind, condense};
}

pub mod owners {
    //! Passed on from `jfs_owners`.

    pub use jfs_owners::{Owners, count_taken};
}

pub mod reader {
    //! Passed on from `jfs_reader`.

    pub use jfs_owners::reader::{has_names, root_in};
}
