//! A mounted volume that up to sixteen clients call at once. A call that waits is made durable by a group of all that the volume has by then.
#![tactic(auto)]

mod calling;
mod client;
mod running;
mod served;
mod server;
mod stopping;

pub use client::Client;
pub use running::run_scripts;
pub use served::ServedVolume;
pub use server::{MountedFrom, Server, ServerPass};
pub use stopping::{Ending, Last, Stopped};

pub mod unmount {
    //! Passed on from `jfs_shared`.

    pub use jfs_shared::unmount::{MountError, Mounted, leave, mount, unmount};
}
