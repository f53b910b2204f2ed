//! A volume that a crash left while it was mounted, and what redo by its own log makes of it. Definitions and laws alone.
#![tactic(auto)]

mod law;

pub use law::own_logs_lead_to_volumes_of_the_history;
