//! The file call rename on a volume whose two sets lie in memory: what is asked, and an object gets another name, in its directory or another one, where nothing stands or in place of another object.
#![tactic(auto)]

mod asking;
mod ends;
mod law;
mod permits;
mod renaming;
mod room;
mod through;

pub use asking::ask;
pub use ends::find_moving;
pub use law::{moves_take_the_plain_step, replacements_take_the_plain_step};
pub use permits::{Asked, permitted};
pub use renaming::{Renamed, rename};
pub use room::check_room;
pub use through::{is_inside, leads_through};

pub mod unlink {
    //! Passed on from `jfs_unlink`.

    pub use jfs_unlink::{remove_directory, unlink};
}
