//! What redo finds of a volume that a crash left while it was mounted. It has no code: its law is a function with an empty body.
#![tactic(auto)]

mod law;

pub use law::own_logs_keep_off_the_maps;
