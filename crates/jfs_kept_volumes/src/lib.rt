//! What keeps a mounted volume between its calls, while its log makes stable what groups have taken. Definitions and laws alone.
#![tactic(auto)]

mod law;

pub use law::{
    changes_lead_to_keepers, fronts_of_events_are_logs, logs_stay_at_rest, other_logs_hold_volumes,
    quiet_changes_keep_volumes, reserved_blocks_keep_volumes, same_volumes_are_kept,
};
