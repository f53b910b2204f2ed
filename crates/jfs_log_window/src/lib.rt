//! What a crash leaves of a mounted volume's log, and which entries redo finds there. Definitions and laws alone.
#![tactic(auto)]

mod law;

pub use law::{crashed_logs_commit_a_window, logs_have_what_happened};
