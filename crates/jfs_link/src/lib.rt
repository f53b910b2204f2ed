//! The file call link on a volume whose two sets lie in memory: an object that is no directory gets one more name.
#![tactic(auto)]

mod asking;
mod joining;
mod linking;

pub use asking::{Joint, ask};
pub use joining::join;
pub use linking::{Linked, link};

pub mod claim {
    //! Passed on from `jfs_claim`.

    pub use jfs_claim::{ClaimError, FreshInode, Want, look_for_inode, look_for_space, take};
}

pub mod lead_steps {
    //! Passed on from `jfs_lead_steps`.

    pub use jfs_lead_steps::own_after;
}

pub mod place {
    //! Passed on from `jfs_place`.

    pub use jfs_place::occupant;
}

pub mod reader {
    //! Passed on from `jfs_reader`.

    pub use jfs_steps::reader::{has_names, root_in};
}

pub mod steps {
    //! Passed on from `jfs_steps`.

    pub use jfs_steps::{Gain, from_names, gain_name, new_place, place, put_inode};
}

pub mod way {
    //! Passed on from `jfs_way`.

    pub use jfs_steps::way::{Held, enter, load, walk};
}
