//! What the transactions of calls log by which a directory loses a name: unlink and rmdir. Laws alone: there is no code that a mistake could be planted in.
#![tactic(auto)]

mod law;

pub use law::lost_names_are_logged;
