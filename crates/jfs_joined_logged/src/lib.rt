//! What a mounted volume's file call logs, by what it answers. A law alone: there is no code that a mistake could be planted in.
#![tactic(auto)]

mod law;

pub use law::answered_calls_are_logged;
