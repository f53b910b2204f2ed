//! File calls that make an object on a volume whose two sets lie in memory: a regular file, a directory, a symbolic link.
#![tactic(auto)]

mod calls;
mod extent;
mod looks;
mod make;
mod new;
mod plan;
mod reserve;
mod seats;

pub use calls::{create, make_directory, make_link, make_object};
pub use extent::NewExtent;
pub use looks::{Seen, look};
pub use make::Plan;
pub use new::{NewObject, Seat, new_inode};
pub use plan::Draft;
pub use reserve::Stop;
pub use seats::{Founded, Seated, Site, site_of};

pub mod link {
    //! Passed on from `jfs_link`.

    pub use jfs_link::{Linked, link};
}
