//! What writing groups of records costs beside the device calls that it takes.

ghost use Rattle.std.specs.Prelude.{◌≡◌, ◌<◌, ◌≤◌, ◌^◌, length, None, IfOk};
ghost use Rattle.jfs_logfmt.specs.Written.{Fits};
ghost use Rattle.jfs_logpages.specs.Group.{pages_of, position_of, room_of};

use jfs_bits::{Blob, LineRange, PageKind, Pxd, Ranges};
use jfs_disk::{Disk, MemDisk, Page};
use jfs_logfmt::Record;
use jfs_logpages::{GroupText, LogSide};
use std::alloc::{AllocError, Global};
use std::io;
use std::time::Instant;
use uuid::Uuid;

/// The pages of the log.
const PAGES: u32 = 1024;

/// The groups that are timed.
const GROUPS: u32 = 1000;

/// One line of an inode page: a record of 168 bytes.
fn record_of(alloc: Global) -> Result<Record, AllocError>
    ensures { IfOk result (λ r. Fits r) }
{
    let mut bytes = Blob::new(alloc);
    bytes.extend_from_slice(&[7; 128])?;
    let mut ranges = Ranges::new(alloc);
    ranges.push(LineRange { first: 8, bytes })?;
    Ok(Record::Redo {
        tid: 1,
        back: 0,
        fileset: 16,
        inode: 0,
        kind: PageKind::Inode,
        new_page: false,
        at: Pxd { len: 1, addr: 29 },
        ranges,
    })
}

/// A group of so many records.
fn group_of(alloc: Global, records: u32) -> Result<GroupText, AllocError> {
    let mut text = GroupText::new(alloc, 1);
    for _record in 0..records {
        if text.bytes().len() < 1_000_000 {
            text.push(&record_of(alloc)?, 1)?;
        }
    }
    Ok(text)
}

/// Writes a group so often, and whether that went well.
fn write_groups(log: LogSide<MemDisk>, text: &GroupText, groups: u32) -> bool
    requires running { log.halted ≡ None }
    requires number { position_of log.last ≤ 2 ^ 33 }
    requires ring { log.last.ring ≤ 2 ^ 15 }
    requires room { pages_of (length text.now.bytes.items) ≤ room_of log.last.ring }
    requires durable { log.durable ≤ text.now.last }
    requires groups { groups ≤ 2 ^ 10 }
{
    let mut log = log;
    for _group in 0..groups {
        if log.write_group(text).is_err() {
            return false;
        }
    }
    true
}

/// The writes and syncs that so many groups of this size take: the last page again, a sync, the further pages, a sync.
fn write_pages(disk: &mut MemDisk, size: usize, groups: u32) {
    let page = Page([1; 4096]);
    let mut fill = 36usize;
    let mut number = 0u32;
    for _group in 0..groups {
        let end = fill.saturating_add(size).saturating_sub(1);
        write_page(disk, number, &page);
        let _ = disk.sync();
        for _further in 0..end / 4080 {
            number = number.wrapping_add(1);
            write_page(disk, number, &page);
        }
        if end >= 4080 {
            let _ = disk.sync();
        }
        fill = end % 4080 + 1;
    }
}

/// Writes the ring page of this number.
fn write_page(disk: &mut MemDisk, number: u32, page: &Page) {
    let place = 2 + number % (PAGES - 2);
    if place < disk.pages() {
        let _ = disk.write(place, page);
    }
}

/// Prints a line for each number of records in a group.
pub fn time_log(rt: &HostRuntime) -> io::Result<()> {
    for records in [1, 16, 256] {
        let text = group_of(rt.alloc(), records)?;
        let Ok(log) = LogSide::fresh(MemDisk::new(rt.alloc(), PAGES), PAGES, Uuid::nil()) else {
            return Ok(());
        };
        if text.pages() > log.room() || log.durable() > text.last() {
            return Ok(());
        }
        let start = Instant::now(rt)?;
        let written = write_groups(log, &text, GROUPS);
        let micros = start.elapsed(rt)?.as_micros();
        // the log's disk has all of its pages, so this one has them too
        let mut disk = MemDisk::new(rt.alloc(), PAGES);
        write_pages(&mut disk, 4080 * PAGES as usize, 1);
        let start = Instant::now(rt)?;
        write_pages(&mut disk, text.bytes().len(), GROUPS);
        let plain = start.elapsed(rt)?.as_micros();
        println!(rt;
            "{GROUPS} groups of {records} records: {micros} us, written {written}; their device calls alone: {plain} us"
        )?;
    }
    Ok(())
}
