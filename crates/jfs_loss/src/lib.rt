//! What calls that take a name away do to one object each: a directory loses a name, and all that an object has is freed.
#![tactic(auto)]

mod answer;
mod free;
mod lose;

pub use free::free_object;
pub use lose::lose_name;

pub mod lead_steps {
    //! Passed on from `jfs_lead_steps`.

    pub use jfs_lead_steps::{own_after, remove_on_top};
}

pub mod reader {
    //! Passed on from `jfs_reader`.

    pub use jfs_steps::reader::{has_names, root_in};
}

pub mod steps {
    //! Passed on from `jfs_steps`.

    pub use jfs_steps::{Gain, from_names, put_inode};
}

pub mod way {
    //! Passed on from `jfs_way`.

    pub use jfs_steps::way::{Held, enter, walk};
}
