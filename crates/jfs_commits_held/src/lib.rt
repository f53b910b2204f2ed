//! A commit keeps a mounted volume held. Definitions and laws alone.
#![tactic(auto)]

mod law;

pub use law::commits_keep_volumes_held;
