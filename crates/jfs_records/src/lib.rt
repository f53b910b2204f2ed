//! The log records of entries: a transaction's edits as records, and records as transactions again.
#![tactic(auto)]

mod alike;
mod from_text;
mod law;
mod note;
mod open;
mod read;
mod regroup;
mod size;
mod write;

pub use from_text::read_records;
pub use law::{
    crashes_find_fronts, entries_are_read_back, fronts_are_read, last_mark_decides,
    redo_is_a_choice, sizes_add_up,
};
pub use note::{Note, Notes};
pub use read::transactions;
pub use regroup::records_of;
pub use size::entry_size;
pub use write::entry_text;
