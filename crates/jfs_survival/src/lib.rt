//! What each change of a mounted volume's halves is in the core of log redo, and what it has to keep for that; and what a crash then leaves. Definitions and laws alone: no call stands on them yet.
#![tactic(auto)]

mod law;

pub use law::{
    busy_blocks_are_let_alone, changes_are_a_run, commits_are_a_run, crashes_leave_a_prefix,
    data_of_files_may_be_written, entries_that_log_well_may_join, images_have_the_owners,
    lists_of_changes_join, logged_entries_are_appends, maps_go_home_before_a_sync,
    mounted_halves_have_a_core, other_map_pages_stay, owners_and_states_move_together,
};
