//! What the redo of a volume on a disk leaves is what the core of log redo makes of it. Definitions and laws alone.
#![tactic(auto)]

mod law;

pub use law::{redo_leaves_what_the_core_redoes, superblocks_leave_volumes};
