//! Transactions that are read back.

ghost use Rattle.std.specs.Prelude.{◌≡◌, ◌<◌, ◌≤◌, ◌^◌, ◌++◌, List, ◌∷◌, length, map, reverse, OnOk, IfOk};
ghost use Rattle.std.specs.List.{AllByRecursion};
ghost use Rattle.jfs_logpages.specs.Back.{Met, FromSync};
ghost use Rattle.jfs_records.specs.Committed.{lines_of, marks_of, edits_of, is_commit as ends_transaction, committed};
ghost use Rattle.jfs_records.specs.Limits.{HasPage};

use jfs_bits::{Blob, PageKind, PxdList, Ranges, Sequence};
use jfs_logfmt::{Record, RecordError, read_record_before};
use jfs_logpages::RingText;
use jfs_ranges::{Edit, Tx};
use std::alloc::{AllocError, Global};

/// Whether a record ends a transaction.
fn is_commit(record: &Record) -> bool
    ensures { result ≡ ends_transaction record.now }
{
    match record {
        Record::Commit { .. } => true,
        Record::Redo { .. }
        | Record::NoRedo { .. }
        | Record::Update { .. }
        | Record::SyncPt { .. } => { false }
    }
}

/// Adds the lines of a page, with copies of their bytes.
fn push_lines(
    alloc: Global,
    page: u32,
    kind: PageKind,
    ranges: &Ranges,
    into: &mut Tx,
) -> Result<(), AllocError>
    ensures { OnOk result (into.new ≡ into.old ++ map (lines_of page kind) ranges.now) }
{
    for range in ranges.as_slice() {
        let mut bytes = Blob::new(alloc);
        bytes.extend_from_slice(range.bytes.as_slice())?;
        into.push(Edit::Lines {
            page,
            kind,
            first: range.first,
            bytes,
        })?;
    }
    Ok(())
}

/// Adds runs that are taken, or freed.
fn push_marks(taken: bool, list: &PxdList, into: &mut Tx) -> Result<(), AllocError>
    ensures { OnOk result (into.new ≡ into.old ++ map (marks_of taken) list.now) }
{
    for run in list.as_slice() {
        into.push(if taken {
            Edit::Alloc(*run)
        } else {
            Edit::Free(*run)
        })?;
    }
    Ok(())
}

/// Adds the edits of a record.
fn push_edits(alloc: Global, record: &Record, into: &mut Tx) -> Result<(), AllocError>
    requires { HasPage record.now }
    ensures { OnOk result (into.new ≡ into.old ++ edits_of record.now) }
{
    match record {
        Record::Redo {
            kind,
            at,
            ranges,
            ..
        } => push_lines(alloc, at.addr as u32, *kind, ranges, into),
        Record::NoRedo { at, .. } => into.push(Edit::NoRedo {
            page: at.addr as u32,
        }),
        Record::Update {
            alloc: taken,
            list,
            ..
        } => push_marks(*taken, list, into),
        Record::Commit { .. } | Record::SyncPt { .. } => Ok(()),
    }
}

/// The committed transactions of records, in their order, the oldest first. What no COMMIT ends is left out.
///
/// # Errors
///
/// Want of memory alone.
pub fn transactions(alloc: Global, records: &[Record]) -> Result<Sequence<Tx>, AllocError>
    requires pages { AllByRecursion HasPage records.now }
    ensures { IfOk result (λ txs. txs ≡ committed records.now) }
{
    let mut done = Sequence::new(alloc);
    let mut begun = Tx::new(alloc);
    for record in records {
        if is_commit(record) {
            done.push(begun)?;
            begun = Tx::new(alloc);
        } else {
            push_edits(alloc, record, &mut begun)?;
        }
    }
    Ok(done)
}
