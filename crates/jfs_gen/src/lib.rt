//! Generated scripts of clients, and what a history of them sums up to.
#![tactic(auto)]

mod name;
mod script;
mod summary;

pub use name::{file_path, home_path};
pub use script::workload;
pub use summary::write_summary;
