//! A mounted volume as the value that the volume turn guards: what it stands for, and its calls, by whichever client.
#![tactic(auto)]

mod calling;
mod collected;
mod committing;
mod halting;
mod law;
mod point_group;
mod pointing;
mod recorded;
mod settling;
mod shared;
mod starting;

pub use calling::call;
pub use committing::commit_with;
pub use jfs_kept_history::call::Outcome;
pub use law::{
    crashes_are_redone_to_histories, crashes_of_mounts_are_redone, histories_are_legal,
    values_together_may_commit,
};
pub use point_group::PointGroup;
pub use pointing::{has_room_for_point, point_with};
pub use recorded::Recorded;
pub use shared::SharedVolume;
pub use starting::started;

pub mod unmount {
    //! Passed on from `jfs_kept_history`.

    pub use jfs_kept_history::unmount::{MountError, Mounted, leave, mount, unmount};
}
