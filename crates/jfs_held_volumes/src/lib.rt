//! A mounted volume is held by its core and its images over each change of its halves, so a crash at any moment leaves a volume of its history. Definitions and laws alone: no call stands on them yet.
#![tactic(auto)]

mod law;

pub use law::{
    changes_keep_volumes_held, commits_leave_volumes, crashes_at_any_moment_leave_a_front,
    data_leaves_images, entries_without_edits_leave_volumes, held_volumes_stay_held,
    images_tell_of_blocks_in_use, volumes_are_held_by_what_is_in_use,
};
