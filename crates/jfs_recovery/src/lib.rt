//! Why redo of a log recovers a volume, proved of every volume that shows the core a few functions which keep some laws. It has no code: its laws are functions with empty bodies.
#![tactic(auto)]

mod face;
mod law;

pub use face::VolumeFace;
pub use law::{
    acknowledged_entries_survive, entries_are_logged_by_edits, fixed_pages_stay,
    fresh_cores_are_sound, laws_can_be_kept, other_counts_are_sound, redo_recovers,
    redo_runs_edit_by_edit, redo_runs_forwards, steps_keep_cores_sound, still_blocks_stay,
    stopped_redo_is_redone, synced_bytes_stay,
};
