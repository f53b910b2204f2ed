//! What a volume's pages spell: its objects and their owners, and what edits of one object do.
#![tactic(auto)]

mod law;

pub use law::{
    data_changes_no_object, inode_extent_changes_nothing, objects_are_framed, one_object_goes,
    one_object_is_set, owners_are_single,
};
