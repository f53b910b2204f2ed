//! How a commit ended.
use jfs_disk::Fault;

/// Whether the entry is durable.
#[derive(Clone, Copy, PartialEq, Eq, Debug)]
pub enum Committed {
    /// It is in the log, and a crash doesn't lose it.
    Durable,
    /// A write or a sync of the log failed; nothing more is written to it.
    Failed { fault: Fault },
}
