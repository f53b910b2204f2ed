//! A file call that is done, data first and then its entry, is a run of changes that keep a mounted volume held. Definitions and laws alone.
#![tactic(auto)]

mod law;

pub use law::{calls_are_runs_of_changes, own_data_goes_where_it_may};
