//! What the pieces of a call make of a mounted volume that a keeper holds. Definitions and laws alone.
#![tactic(auto)]

mod law;

pub use law::{
    entries_keep_volumes, newest_volumes_are_the_same, questions_keep_volumes,
    replies_keep_volumes, stopped_writes_keep_volumes,
};
