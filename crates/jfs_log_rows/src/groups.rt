//! Logs and groups for the tests.

ghost use Rattle.std.specs.Prelude.{◌≡◌, ◌<◌, ◌≤◌, ◌-◌, ◌^◌, IfOk, IfSome, None};
ghost use Rattle.jfs_disk.specs.Memory.{page_count_of};
ghost use Rattle.jfs_logfmt.specs.Written.{Fits};

use crate::plain::address;
use jfs_bits::{Blob, LineRange, PageKind, Pxd, PxdList, Ranges};
use jfs_disk::{Disk, MemDisk};
use jfs_logfmt::Record;
use jfs_logpages::{GroupText, LogSide, RingError, RingText, read_ring};
use std::alloc::{AllocError, Global};
use uuid::Uuid;

/// A fresh log of so many pages on a disk, `None` where the disk is too small or fails.
pub fn fresh(disk: MemDisk, pages: u32) -> Option<LogSide<MemDisk>>
    requires { (256 ≤ pages) × (pages ≤ 32768) × (pages ≤ page_count_of disk) }
    ensures { IfSome result (λ log. (log.last.ring ≡ pages - 2) × (log.last.number ≡ pages - 3) × (log.last.fill ≡ 36) × (log.durable ≡ 0) × (log.halted ≡ None)) }
{
    match LogSide::fresh(disk, pages, Uuid::nil()) {
        Ok(log) => Some(log),
        Err(_) => None,
    }
}

/// A record of `36 + 8 * runs` bytes.
pub fn update(alloc: Global, tid: u32, back: u32, runs: u16) -> Result<Record, AllocError>
    requires { runs < 2 ^ 13 }
    ensures { IfOk result (λ r. Fits r) }
{
    let mut list = PxdList::new(alloc);
    for _i in 0..runs {
        list.push(Pxd { len: 1, addr: 100 })?;
    }
    Ok(Record::Update {
        tid,
        back,
        fileset: 16,
        inode: 4,
        alloc: true,
        list,
    })
}

/// Line 8 of page 29, with which inode 2 begins, as the first record of a transaction.
pub fn inode_record(alloc: Global, tid: u32) -> Result<Record, AllocError>
    ensures { IfOk result (λ r. Fits r) }
{
    let mut bytes = Blob::new(alloc);
    bytes.extend_from_slice(&[7; 128])?;
    let mut ranges = Ranges::new(alloc);
    ranges.push(LineRange { first: 8, bytes })?;
    Ok(Record::Redo {
        tid,
        back: 0,
        fileset: 16,
        inode: 0,
        kind: PageKind::Inode,
        new_page: false,
        at: Pxd { len: 1, addr: 29 },
        ranges,
    })
}

/// Adds a record to a group of less than a million bytes.
pub fn push(text: &mut GroupText, record: &Record, last: u64) -> Result<(), AllocError>
    requires { Fits record.now }
{
    if text.bytes().len() < 1_000_000 {
        text.push(record, last)?;
    }
    Ok(())
}

/// A SYNCPT; or behind it also one transaction, with so many lists of 4,036 bytes and its COMMIT. `size` is how
/// much text the log has before, in a ring of so many pages.
pub fn group(
    alloc: Global,
    ring: u32,
    size: usize,
    tid: u32,
    lists: u32,
) -> Result<GroupText, AllocError>
    requires ring { (0 < ring) × (ring < 2 ^ 16) }
    requires size { size < 2 ^ 32 }
{
    let last = u64::from(tid);
    let mut text = GroupText::new(alloc, last);
    push(&mut text, &Record::SyncPt { sync: 0 }, last)?;
    let mut back = 0;
    for _i in 0..lists {
        push(&mut text, &update(alloc, tid, back, 500)?, last)?;
        back = address(ring, size + text.bytes().len());
    }
    if lists > 0 {
        push(&mut text, &Record::Commit { tid, back }, last)?;
    }
    Ok(text)
}

/// Reads the log of so many pages that a part begins with.
pub fn read(alloc: Global, part: &mut MemDisk, pages: u32) -> Result<RingText, RingError>
    requires { (256 ≤ pages) × (pages ≤ 32768) }
{
    if part.pages() < pages {
        return Err(RingError::Memory);
    }
    read_ring(
        alloc,
        part,
        Pxd {
            len: pages,
            addr: 0,
        },
        3008,
    )
}
