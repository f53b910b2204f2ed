//! Records, and how many edits each of their committed transactions has.

ghost use Rattle.std.specs.Prelude.{IfOk};
ghost use Rattle.std.specs.List.{AllByRecursion};
ghost use Rattle.jfs_records.specs.Limits.{HasPage};

use jfs_bits::{PageKind, Pxd, PxdList, Sequence};
use jfs_logfmt::Record;
use jfs_ranges::Tx;
use jfs_records::transactions;
use std::alloc::{AllocError, Global};

/// A record.
#[derive(Clone, Copy)]
pub enum Kind {
    /// A page that goes.
    Removed(u32),
    /// A list of so many runs.
    Update(u32),
    Commit,
    SyncPt,
}

/// So many runs.
fn runs_of(alloc: Global, runs: u32) -> Result<PxdList, AllocError> {
    let mut list = PxdList::new(alloc);
    for _run in 0..runs {
        list.push(Pxd { len: 1, addr: 100 })?;
    }
    Ok(list)
}

/// The record.
fn record_of(alloc: Global, kind: Kind) -> Result<Record, AllocError>
    ensures { IfOk result (λ r. HasPage r) }
{
    Ok(match kind {
        Kind::Removed(page) => Record::NoRedo {
            tid: 1,
            back: 0,
            fileset: 16,
            inode: 4,
            kind: PageKind::Xtree,
            at: Pxd {
                len: 1,
                addr: u64::from(page),
            },
        },
        Kind::Update(runs) => Record::Update {
            tid: 1,
            back: 0,
            fileset: 16,
            inode: 4,
            alloc: false,
            list: runs_of(alloc, runs)?,
        },
        Kind::Commit => Record::Commit { tid: 1, back: 0 },
        Kind::SyncPt => Record::SyncPt { sync: 0 },
    })
}

/// The records.
fn records_of(alloc: Global, kinds: &[Kind]) -> Result<Vec<Record>, AllocError>
    ensures { IfOk result (λ records. AllByRecursion HasPage records.items) }
{
    let mut records = Vec::new(alloc);
    for kind in kinds {
        records.push(record_of(alloc, *kind)?)?;
    }
    Ok(records)
}

/// Whether the transactions have so many edits.
fn have(txs: &Sequence<Tx>, edits: &[usize]) -> bool {
    if txs.len() != edits.len() {
        return false;
    }
    for i in 0..edits.len() {
        match txs.get(i) {
            Some(tx) => {
                if tx.len() != edits[i] {
                    return false;
                }
            }
            None => return false,
        }
    }
    true
}

/// Whether the committed transactions of the records have so many edits.
pub fn are_told(alloc: Global, kinds: &[Kind], edits: &[usize]) -> bool {
    match records_of(alloc, kinds) {
        Ok(records) => match transactions(alloc, records.as_slice()) {
            Ok(txs) => have(&txs, edits),
            Err(_) => false,
        },
        Err(_) => false,
    }
}
