//! The log's records as text, and the log's superblock.
#![tactic(auto)]

mod descriptor;
mod kind;
mod law;
mod log_record;
mod log_super;
mod range;
mod reading;
mod run;
mod writing;

pub use kind::PageType;
pub use law::{spells_one_at_most, written_is_spelled};
pub use log_record::{BadRecord, Record, RecordError};
pub use log_super::{LogSuper, read_log_super, write_log_super};
pub use reading::read_record_before;
pub use writing::write_record;
