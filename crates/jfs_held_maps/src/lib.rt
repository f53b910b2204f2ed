//! The maps of a mounted volume that is held, as a mount looked at them. Definitions and laws alone.
#![tactic(auto)]

mod law;

pub use law::{
    changes_keep_maps, crashes_leave_fixed_pages, files_stay_in_their_places,
    first_pages_are_fixed, mounted_volumes_have_maps, runs_keep_maps, volumes_leave_maps,
};
