//! How a call is answered.

use jfs_plain::Reply;

/// How a call is answered.
#[derive(Debug, Drop)]
pub enum Outcome {
    /// With this reply, and an entry with this number, counted from 1. Where it waits, its caller goes on once that entry is durable.
    Replied {
        reply: Reply,
        entry: u64,
        waits: bool,
    },
    /// The log has no room for its records, or busy blocks stand between the call and its blocks: it has no entry, and is to be called again with the log.
    NeedsLog,
    /// Memory ran out: it has no entry. The tree is as it was, unless a write of its data had failed and memory lacked for the refusal.
    NoMemory,
}
