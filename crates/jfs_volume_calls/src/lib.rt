//! Calls on a mounted volume that are lent its log, or are handed it: a commit, a syncpoint, and the disk handed back.
#![tactic(auto)]

mod committing;
mod leaving;
mod point;
mod syncing;

pub use committing::commit;
pub use leaving::leave;
pub use point::PointText;
pub use syncing::syncpoint;

pub mod volume {
    //! Passed on from `jfs_volume`.

    pub use jfs_volume::{Asks, Called, Outcome, Volume};
}
