//! What file calls log where they are done. A law alone: there is no code that a mistake could be planted in.
#![tactic(auto)]

mod law;

pub use law::changes_of_files_are_logged;
