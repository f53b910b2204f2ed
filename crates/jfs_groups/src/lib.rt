//! Group commit: whoever wants an entry durable writes all that was appended by then as one group, and others go on meanwhile.
#![tactic(auto)]

mod collected;
mod commit;
mod committed;
mod law;
mod lead;
mod log;

pub use collected::{Collected, HasRecords};
pub use commit::commit_up_to;
pub use committed::Committed;
pub use law::fresh_log_stands;
pub use log::SharedLog;
