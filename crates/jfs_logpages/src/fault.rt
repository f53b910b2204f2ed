//! Why the log was not written.

use jfs_disk::Fault;

/// A write or a sync of the log's part failed.
#[derive(Clone, Copy, PartialEq, Eq, Debug)]
pub struct LogFault {
    pub fault: Fault,
}

/// The log's part could not be made a fresh log; it is handed back.
#[derive(Drop)]
pub struct LogRefused<D> {
    pub part: D,
    pub why: LogFault,
}
