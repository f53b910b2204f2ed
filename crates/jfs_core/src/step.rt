//! The core's steps, and why one is refused.

use jfs_disk::{Fault, Page};
use jfs_ranges::Tx;

/// One device call on the low part, one whole group write or one change of counts.
#[derive(Drop)]
pub enum Step {
    /// An entry joins the history, with its transaction.
    Append { tx: Tx },
    /// A group takes all entries and syncpoints so far.
    Take,
    /// The open group is written, and is stable.
    GroupWrite,
    /// All durable entries are acknowledged.
    Told,
    /// A dirty page is written back, as it is after the acknowledged entries.
    Home { page: u32 },
    /// What was written to the low part becomes stable.
    LowSync,
    /// The first `c` entries needn't be redone any more.
    SyncPoint { c: u64 },
    /// A device call failed.
    Fault { fault: Fault, of: FaultOf },
}

/// The device call that failed.
#[derive(Drop)]
pub enum FaultOf {
    Read,
    LowSync,
    GroupWrite,
    /// A read now gives the first `sectors` sectors of `bytes`, and the rest as before.
    LowWrite {
        page: u32,
        bytes: Page,
        sectors: u32,
    },
}

/// The condition of a step that does not hold; the first one, in this order.
#[derive(Clone, Copy, PartialEq, Eq, Debug)]
pub enum Why {
    /// The part has halted.
    Halted,
    /// The page isn't dirty, or no step would make that write.
    NotDirty,
    /// The entry isn't acknowledged.
    NotTold,
    /// A group is open.
    GroupOpen,
    /// No group is open.
    NoGroup,
    /// A page that holds an entry may not be stable, or the count falls.
    NotSynced,
}

/// The step that isn't allowed in the state reached, counted from 0, and why.
#[derive(Clone, Copy, PartialEq, Eq, Debug)]
pub struct StepRefused {
    pub at: u32,
    pub why: Why,
}

/// Why a run ended before its last step.
#[derive(Clone, Copy, Debug)]
pub enum RunError {
    /// A step isn't allowed.
    Refused(StepRefused),
    /// Memory ran out.
    Memory,
}
