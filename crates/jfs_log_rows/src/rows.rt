//! Rows worked out by hand, on logs of 256 and of 1,024 pages.

use crate::failing::one_fail;
use crate::groups::{fresh, push, read, update};
use jfs_disk::{Choice, Kind, MemDisk};
use jfs_logpages::{GroupText, RingText};
use std::alloc::{AllocError, Global};

// A fresh log of 1,024 pages ends with its SYNCPT, 36 bytes behind the header of its last page.
#[test]
fn a_fresh_log_has_one_record(rt: HostRuntime) {
    assert!(rt; is_fresh(rt.alloc()));
}

/// Whether a fresh log has one record.
fn is_fresh(alloc: Global) -> bool {
    let Some(log) = fresh(MemDisk::new(alloc, 1024), 1024) else {
        return false;
    };
    match read(alloc, &mut log.into_part(), 1024) {
        Ok(read) => {
            read.bytes().len() == 510 * 4080 + 36 && ends(&read, 4_190_252, &[510 * 4080 + 36])
        }
        Err(_) => false,
    }
}

/// Whether the log ends there, and its records do so, from the last one back.
fn ends(read: &RingText, end: u32, records: &[u32]) -> bool {
    read.end() == end && read.ends() == records
}

// A page with end 200 is rewritten with end 900, and torn after one sector: its header says 900 and its trailer 200,
// and it reads with end 200. In a log of 256 pages it is page 255.
#[test]
fn a_torn_last_page_reads_as_the_old_one(rt: HostRuntime) {
    assert!(rt; is_old_page(rt.alloc()) == Ok(true));
}

/// Whether that page is read with the end that it had.
fn is_old_page(alloc: Global) -> Result<bool, AllocError> {
    let disk = MemDisk::new(alloc, 256).with_fails(one_fail(alloc, Kind::Sync, 3)?);
    let Some(mut log) = fresh(disk, 256) else {
        return Ok(false);
    };
    let mut first = GroupText::new(alloc, 0);
    first.push(&update(alloc, 1, 0, 15)?, 1)?;
    let mut second = GroupText::new(alloc, 1);
    second.push(&update(alloc, 1, 255 * 4096 + 200, 83)?, 2)?;
    if first.bytes().len() != 156 || second.bytes().len() != 700 {
        return Ok(false);
    }
    if first.pages() > log.room() || log.write_group(&first).is_err() {
        return Ok(false);
    }
    if second.pages() > log.room() || log.durable() > second.last() {
        return Ok(false);
    }
    if log.write_group(&second).is_ok() || log.halted().is_none() || log.durable() != 1 {
        return Ok(false);
    }
    let torn = Choice {
        page: 255,
        base: 0,
        top: 1,
        sectors: 1,
    };
    match read(alloc, &mut log.into_part().crashed(&[torn]), 256) {
        Ok(read) => {
            let before = 126 * 4080;
            Ok(ends(&read, 255 * 4096 + 200, &[before + 192, before + 36]))
        }
        Err(_) => Ok(false),
    }
}

// Behind page number 1,021, the numbers 1,022 to 1,024 are written, each with a record's end, and 1,023 is lost:
// the log ends on number 1,022, which stands at page 2 of the log.
#[test]
fn a_lost_page_ends_the_log(rt: HostRuntime) {
    assert!(rt; ends_before_lost(rt.alloc()) == Ok(true));
}

/// Whether that log ends before the page that is lost.
fn ends_before_lost(alloc: Global) -> Result<bool, AllocError> {
    let disk = MemDisk::new(alloc, 1024).with_fails(one_fail(alloc, Kind::Sync, 3)?);
    let Some(mut log) = fresh(disk, 1024) else {
        return Ok(false);
    };
    let mut text = GroupText::new(alloc, 0);
    for back in [0, 1023 * 4096 + 4080, 12_228, 16_280] {
        push(&mut text, &update(alloc, 1, back, 500)?, 1)?;
    }
    if text.ends() != [4036, 8072, 12_108, 16_144].as_slice() || text.pages() > log.room() {
        return Ok(false);
    }
    if log.write_group(&text).is_ok() {
        return Ok(false);
    }
    let lost = Choice {
        page: 3,
        base: 0,
        top: 0,
        sectors: 0,
    };
    match read(alloc, &mut log.into_part().crashed(&[lost]), 1024) {
        Ok(read) => {
            let before = 509 * 4080;
            Ok(ends(&read, 12_228, &[before + 8108, before + 4072, before + 36]))
        }
        Err(_) => Ok(false),
    }
}
