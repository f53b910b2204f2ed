//! File calls on a mounted volume: what a call is given, and what it answers, each answer with its cause said once for all of them.
#![tactic(auto)]

mod bytes;
mod call;
mod change;
mod law;
mod naming;
mod outcome;
mod renaming;
mod reply;
mod size;

pub use call::file_call;
pub use jfs_map_files::Maps;
pub use jfs_truncate::data_steps::{DataList, DataPage};
pub use law::no_data_leaves_the_transaction_alone;
pub use outcome::FileOutcome;
