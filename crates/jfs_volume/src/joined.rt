//! How an entry with a transaction joins.

use jfs_disk::Fault;

/// How an entry with a transaction joins the history.
#[derive(Clone, Copy, PartialEq, Eq, Debug)]
pub enum Joined {
    /// It has this number, counted from 1.
    Entered { entry: u64 },
    /// The log has no room for its records, and nothing changed.
    NoRoom,
    /// Memory ran out, and nothing changed.
    NoMemory,
    /// A page that it changes can't be read, and nothing changed. The part's count of faults rose to the fault's.
    Unread { fault: Fault },
    /// The write of a block of a file failed: the entry didn't join, blocks before it were written, and the volume has halted. The part's count of faults rose to the fault's.
    Failed { fault: Fault },
}
