//! A check of a new volume.
#![tactic(auto)]

mod law;

pub use law::new_volume_is_clean;

pub mod findings {
    //! Passed on from `jfs_findings`.

    pub use jfs_findings::Finding;
}
