//! Steps that file calls are made of: the place of a path's last name, a directory that gains a name, an inode that is put into its slot; and what a call's whole
//! transaction leaves.
#![tactic(auto)]

mod answer;
mod gain;
mod law;
mod places;
mod put;

pub use answer::from_names;
pub use gain::{Gain, gain_name};
pub use law::{
    blocks_in_use_are_counted, lines_change_pages_alone, names_are_gained, steps_take_and_free,
    transactions_follow_each_other, volume_is_the_one_after,
};
pub use places::{new_place, place};
pub use put::put_inode;

pub mod reader {
    //! Passed on from `jfs_reader`.

    pub use jfs_way::reader::{has_extents, has_names, root_in};
}

pub mod way {
    //! Passed on from `jfs_way`.

    pub use jfs_way::{Held, enter, load, walk};
}
