//! The steps of a syncpoint keep a mounted volume, one by one. Definitions and laws alone.
#![tactic(auto)]

mod law;

pub use law::{
    pages_that_go_home_keep_volumes, points_keep_volumes, synced_volumes_are_settled,
    syncpoints_are_runs_of_changes, written_maps_keep_volumes,
};
