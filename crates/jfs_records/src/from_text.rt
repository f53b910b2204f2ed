//! The records of a log's text.

ghost use Rattle.std.specs.Prelude.{◌≡◌, List, map, IfOk};
ghost use Rattle.std.specs.List.{AllByRecursion};
ghost use Rattle.jfs_logfmt.specs.Rules.{IsRecordOf};
ghost use Rattle.jfs_logpages.specs.Back.{Met, IsMet};
ghost use Rattle.jfs_records.specs.Limits.{HasPage};
ghost use Rattle.jfs_records.specs.FromText.{AreRecords};

use jfs_logfmt::{Record, RecordError, read_record_before};
use jfs_logpages::RingText;
use std::alloc::{AllocError, Global};

/// The records of a log's text whose ends were read, on a volume of so many blocks, the oldest first: those that stand one behind the other up to its end. Each keeps the rules of a record.
///
/// # Errors
///
/// Want of memory alone.
pub fn read_records(alloc: Global, read: &RingText, blocks: u32) -> Result<Vec<Record>, AllocError>
    requires { (ms : List Met) × AreRecords blocks read.now ms }
    ensures records { IfOk result (λ records. (ms : List Met) → AreRecords blocks read.now ms → records.items ≡ map (λ m. m.is) ms) }
    ensures kept { IfOk result (λ records. AllByRecursion (IsRecordOf blocks) records.items) }
    ensures pages { IfOk result (λ records. AllByRecursion HasPage records.items) }
{
    let mut records = Vec::new(alloc);
    let mut rest = read.ends();
    while let Some((end, newer)) = rest.split_last() {
        let record = record_before(alloc, read, blocks, *end)?;
        records.push(record)?;
        rest = newer;
    }
    Ok(records)
}

/// The record that ends there.
fn record_before(
    alloc: Global,
    read: &RingText,
    blocks: u32,
    end: u32,
) -> Result<Record, AllocError>
    requires { (m : Met) × IsMet blocks read.now.bytes.items m × (m.end ≡ end) }
    ensures is { IfOk result (λ r. (m : Met) → IsMet blocks read.now.bytes.items m → m.end ≡ end → r ≡ m.is) }
    ensures kept { IfOk result (IsRecordOf blocks) }
    ensures page { IfOk result HasPage }
{
    match read_record_before(alloc, &read.bytes()[..end as usize], blocks) {
        Ok((found, _)) => Ok(found),
        Err(RecordError::Memory) => Err(AllocError),
        Err(RecordError::Bad(_)) => unreachable!(),
    }
}
