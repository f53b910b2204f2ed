//! Who owns the blocks of a volume, in two bits a block.
#![tactic(auto)]

mod extents;
mod fixed;
mod object;
mod owners;
mod passed;
mod shared;
mod shown;
mod trees;
mod words;

pub use owners::Owners;
pub use shown::Judge;
pub use words::count_taken;

pub mod findings {
    //! Passed on from `jfs_findings`.

    pub use jfs_findings::{Finding, FindingKind, condense};
}

pub mod mount_rules {
    //! Passed on from `jfs_mount`.

    pub use jfs_findings::mount_rules::first_broken;
}

pub mod reader {
    //! Passed on from `jfs_reader`.

    pub use jfs_findings::reader::{has_extents, has_names, root_in};
}
