//! The committed transactions of a volume's log.

ghost use Rattle.std.specs.Prelude.{◌≡◌, ◌<◌, ◌≤◌, ◌+◌, ◌^◌, drop, length, IfOk, OnOk, IfErr};
ghost use Rattle.std.specs.List.{AllByRecursion};
ghost use Rattle.jfs_disk.specs.Image.{Image};
ghost use Rattle.jfs_logfmt.specs.Rules.{IsRecordOf};
ghost use Rattle.jfs_records.specs.Limits.{HasPage};
ghost use Rattle.jfs_redo.specs.Log.{IsLogOf, AreLogRecords, ExtentsLieWithin, IsLogCause, refusal_of};

use crate::error::RedoError;
use jfs_bits::{Pxd, Sequence};
use jfs_disk::Disk;
use jfs_logfmt::Record;
use jfs_logpages::{RingError, read_ring};
use jfs_ranges::Tx;
use jfs_records::{read_records, transactions};
use std::alloc::Global;

/// The committed transactions of the log at `log`, of a volume of so many blocks, the oldest first: those whose records stand from the place on that the newest SYNCPT gives, and whose COMMIT is there.
///
/// They are made of the log's records once its text is given back.
pub(crate) fn committed_in<D: Disk>(
    alloc: Global,
    disk: &mut D,
    log: Pxd,
    blocks: u32,
) -> Result<Sequence<Tx>, RedoError>
    requires place { log.addr + log.len ≤ D.page_count disk.old }
    requires pages { (256 ≤ log.len) × (log.len ≤ 32768) }
    ensures pages { D.page_count disk.new ≡ D.page_count disk.old }
    ensures image { D.tells → D.image disk.new ≡ D.image disk.old }
    ensures past { D.tells_crashes → D.past disk.new ≡ D.past disk.old }
    ensures log { (image : Image) × (D.tells → image ≡ D.image disk.old) × IsLogOf log.len blocks (drop log.addr image) result }
    ensures within { IfOk result (AllByRecursion (ExtentsLieWithin blocks)) }
    ensures cause { IsLogCause (D.fault_count disk.old) (D.fault_count disk.new) result }
    ensures later { D.fault_count disk.old ≤ D.fault_count disk.new }
{
    let records = match records_in(alloc, disk, log, blocks) {
        Ok(records) => records,
        Err(why) => return Err(why),
    };
    match transactions(alloc, records.as_slice()) {
        Ok(txs) => Ok(txs),
        Err(_) => Err(RedoError::Memory),
    }
}

/// The records of the log from the place on that the newest SYNCPT gives, the oldest first, without its text.
fn records_in<D: Disk>(
    alloc: Global,
    disk: &mut D,
    log: Pxd,
    blocks: u32,
) -> Result<Vec<Record>, RedoError>
    requires place { log.addr + log.len ≤ D.page_count disk.old }
    requires pages { (256 ≤ log.len) × (log.len ≤ 32768) }
    ensures pages { D.page_count disk.new ≡ D.page_count disk.old }
    ensures image { D.tells → D.image disk.new ≡ D.image disk.old }
    ensures past { D.tells_crashes → D.past disk.new ≡ D.past disk.old }
    ensures records { IfOk result (λ records. (image : Image) × (D.tells → image ≡ D.image disk.old) × AreLogRecords log.len blocks (drop log.addr image) records.items) }
    ensures refused { IfErr result (λ why. (image : Image) × (D.tells → image ≡ D.image disk.old) × IsLogOf log.len blocks (drop log.addr image) (Err why)) }
    ensures kept { IfOk result (λ records. AllByRecursion (IsRecordOf blocks) records.items) }
    ensures placed { IfOk result (λ records. AllByRecursion HasPage records.items) }
    ensures cause { IsLogCause (D.fault_count disk.old) (D.fault_count disk.new) result }
    ensures later { D.fault_count disk.old ≤ D.fault_count disk.new }
{
    let read = match read_ring(alloc, disk, log, blocks) {
        Ok(read) => read,
        Err(why) => return Err(refusal_of(why)),
    };
    match read_records(alloc, &read, blocks) {
        Ok(records) => Ok(records),
        Err(_) => Err(RedoError::Memory),
    }
}

/// Why a log wasn't read, as an error of redo.
fn refusal_of(why: RingError) -> RedoError
    ensures { result ≡ refusal_of why }
{
    match why {
        RingError::Read(fault) => RedoError::Disk(fault),
        RingError::ForeignLog { label } => RedoError::ForeignLog { label },
        RingError::BadLog { address, rule } => RedoError::BadLog { address, rule },
        RingError::Memory => RedoError::Memory,
    }
}
