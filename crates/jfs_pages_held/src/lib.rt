//! Which pages of a held volume are dirty, and how far the pages of its maps are behind memory. Definitions and laws alone.
#![tactic(auto)]

mod law;

pub use law::{
    changes_beside_entries_leave_marks, dirty_pages_may_leave, entries_without_edits_leave_marks,
    joined_calls_keep_pages, map_pages_are_those_of_the_core, map_pages_may_be_written,
    only_entries_dirty_pages, pages_stay_as_they_were, transactions_dirty_their_own,
    volumes_are_held_beside_map_pages, writes_of_map_pages_may_fail,
};
