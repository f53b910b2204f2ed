//! What the transactions of write and fill log, whose data is written before. Laws alone: there is no code that a mistake could be planted in.
#![tactic(auto)]

mod law;

pub use law::writes_of_files_are_logged;
