//! The image after an entry, with canonical map pages, is the volume after it, with its maps where they were mounted. Definitions and laws alone: no call stands on them yet.
#![tactic(auto)]

mod law;

pub use law::{
    crashes_leave_a_volume_of_the_history, entries_leave_maps_in_their_places,
    images_are_volumes_after_entries, images_follow_runs, images_follow_volumes,
    images_of_histories_are_volumes, images_show_what_is_logged_after_entries,
    mounted_images_are_volumes, transactions_between_volumes_are_entries,
};
