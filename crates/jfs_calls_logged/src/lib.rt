//! What the transaction of a file call logs, of a change of a mode so far: each page that the log keeps safe, and of blocks that stay in use their owners. Laws alone: there is no code that a mistake could be planted in.
#![tactic(auto)]

mod law;

pub use law::{changes_of_modes_are_logged, paths_lead_to_objects};
