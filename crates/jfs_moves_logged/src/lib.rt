//! What the transaction of a rename logs. Laws alone: there is no code that a mistake could be planted in.
#![tactic(auto)]

mod law;

pub use law::renames_are_logged;
