//! What a volume of this file system shows to the core of log redo: who owns each block, what an entry does to pages and to what the maps keep, and how the pages of the maps follow from that. It has no code: its law is a function with an empty body.
#![tactic(auto)]

mod law;

pub use law::{
    mounted_volumes_are_seen_as_they_are, other_map_pages_stay, redo_goes_edit_by_edit,
    volumes_keep_the_laws, volumes_survive_crashes,
};
