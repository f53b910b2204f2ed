//! Logs with bytes changed, and what is read of them.

ghost use Rattle.std.specs.Prelude.{◌≤◌};

use crate::groups::{inode_record, push};
use crate::trial::Trial;
use jfs_bits::Pxd;
use jfs_disk::{Disk, MemDisk, Page};
use jfs_logfmt::Record;
use jfs_logpages::{GroupText, RingError, RingText, read_ring, write_fresh};
use std::alloc::{AllocError, Global};
use uuid::Uuid;

/// A log of 1,024 pages.
#[derive(Clone, Copy)]
pub enum Log {
    /// None, but zeros.
    Zeros,
    /// A fresh one, at the end of a disk of 4,096 pages.
    Fresh,
    /// One after one change of the root's mode, on a disk of its own.
    OneChange,
}

/// The page of the disk with which the log begins.
fn first_of(log: Log) -> u32
    ensures { result ≤ 3072 }
{
    match log {
        Log::OneChange => 0,
        Log::Zeros | Log::Fresh => 3072,
    }
}

/// A disk with the log, as far as it could be written.
fn disk_of(alloc: Global, log: Log) -> Result<MemDisk, AllocError> {
    let mut disk = MemDisk::new(alloc, 4096);
    match log {
        Log::OneChange => one_change(alloc),
        Log::Zeros => Ok(disk),
        Log::Fresh => {
            let place = Pxd {
                len: 1024,
                addr: 3072,
            };
            let _ = write_fresh(&mut disk, place, Uuid::nil());
            Ok(disk)
        }
    }
}

/// A log with one transaction: the line of page 29 with which the root's inode begins, and a COMMIT.
fn one_change(alloc: Global) -> Result<MemDisk, AllocError> {
    let mut text = GroupText::new(alloc, 0);
    push(&mut text, &inode_record(alloc, 1)?, 1)?;
    let commit = Record::Commit {
        tid: 1,
        back: 4_190_420,
    };
    push(&mut text, &commit, 1)?;
    match Trial::new(MemDisk::new(alloc, 1024), 1024) {
        Ok(trial) => match trial.write(&text) {
            Ok(trial) => Ok(trial.into_part()),
            Err(part) => Ok(part),
        },
        Err(part) => Ok(part),
    }
}

/// Changes one byte of a page; whether it could be.
fn change(disk: &mut MemDisk, page: u32, at: usize, byte: u8) -> bool {
    let mut bytes = Page::zeros();
    if page >= disk.pages() || disk.read(page, &mut bytes).is_err() {
        return false;
    }
    let _size = bytes.bytes();
    if at < 4096 {
        bytes.0[at] = byte;
    }
    disk.write(page, &bytes).is_ok()
}

/// What is read of a log once bytes of it were changed, each by its page of the log, its offset and its value. Where one can't be
/// changed it is want of memory.
pub fn read_changed(
    alloc: Global,
    log: Log,
    bytes: &[(u32, usize, u8)],
) -> Result<RingText, RingError> {
    let first = first_of(log);
    let Ok(mut disk) = disk_of(alloc, log) else {
        return Err(RingError::Memory);
    };
    for (page, at, byte) in bytes {
        if !change(&mut disk, first.saturating_add(*page), *at, *byte) {
            return Err(RingError::Memory);
        }
    }
    if disk.pages() < first + 1024 {
        return Err(RingError::Memory);
    }
    let place = Pxd {
        len: 1024,
        addr: u64::from(first),
    };
    read_ring(alloc, &mut disk, place, 3008)
}
