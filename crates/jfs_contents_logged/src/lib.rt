//! What the transaction of a truncate logs. Laws alone: there is no code that a mistake could be planted in.
#![tactic(auto)]

mod law;

pub use law::changes_of_sizes_are_logged;
