//! A crash at any moment of a run of a mounted volume leaves a volume of its history. Definitions and laws alone.
#![tactic(auto)]

mod law;

pub use law::{calls_and_commits_are_pieces, crashes_of_runs_leave_a_front, replies_are_pieces};
