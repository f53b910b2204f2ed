//! The log's records.

ghost use Rattle.std.specs.Prelude.{◌≡◌};
ghost use Rattle.jfs_logfmt.specs.declared.log_record.RecordError.TheVariants.{Memory, Bad};

use jfs_bits::{PageKind, Pxd, PxdList, Ranges, Rule};
use std::alloc::{AllocError, AllocFailed};

/// A record of the log. `tid` is the transaction's number, and `back` the address where the
/// transaction's record before this one ends, or 0. (JFS Log.)
#[derive(Debug, Drop)]
pub enum Record {
    /// Lines of a page after the change (REDOPAGE).
    Redo {
        tid: u32,
        back: u32,
        fileset: u32,
        /// The first inode of an inode page; the owner of a tree's page.
        inode: u32,
        kind: PageKind,
        /// Whether the page was allocated by this transaction.
        new_page: bool,
        at: Pxd,
        ranges: Ranges,
    },
    /// Earlier records of this page are not redone (NOREDOPAGE).
    NoRedo {
        tid: u32,
        back: u32,
        fileset: u32,
        inode: u32,
        kind: PageKind,
        at: Pxd,
    },
    /// Blocks that were allocated or freed (UPDATEMAP).
    Update {
        tid: u32,
        back: u32,
        fileset: u32,
        inode: u32,
        alloc: bool,
        list: PxdList,
    },
    /// The end of a transaction (COMMIT).
    Commit {
        tid: u32,
        back: u32,
    },
    /// Redo needs no record before this address; 0 means this record (SYNCPT).
    SyncPt {
        sync: u32,
    },
}

/// Why bytes are no record: the first rule that they break.
#[derive(Clone, Copy, PartialEq, Eq, Debug)]
pub struct BadRecord {
    pub rule: Rule,
}

/// Why no record was read.
#[derive(Debug, Drop)]
pub enum RecordError {
    Bad(BadRecord),
    Memory,
}

impl From<AllocError> for RecordError {
    ghost from_gives = { λ _ e. e ≡ Memory };

    fn from(_e: AllocError) -> RecordError {
        RecordError::Memory
    }
}

impl<T: Drop> From<AllocFailed<T>> for RecordError {
    ghost from_gives = { λ _ e. e ≡ Memory };

    fn from(_e: AllocFailed<T>) -> RecordError {
        RecordError::Memory
    }
}

/// The refusal by this rule.
pub fn bad(rule: Rule) -> RecordError
    ensures { result ≡ Bad (record { rule = rule }) }
{
    RecordError::Bad(BadRecord { rule })
}
