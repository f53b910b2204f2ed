//! What the transactions of calls log by which a directory gains a name: link, create, mkdir and symlink. Laws alone: there is no code that a mistake could be planted in.
#![tactic(auto)]

mod law;

pub use law::gained_names_are_logged;
