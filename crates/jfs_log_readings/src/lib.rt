//! What a log that a crash left reads as: its window of the history, and nothing else. Laws alone: there is no code that a mistake could be planted in.
#![tactic(auto)]

mod law;

pub use law::{readings_are_windows, windows_are_found, windows_are_not_refused};
