//! Each device call of a log fails in turn, and what is read then.

use crate::groups::{group, read};
use crate::plain::Plain;
use crate::trial::Trial;
use jfs_bits::Rule;
use jfs_disk::{Fail, Fault, Kind, MemDisk, Part};
use jfs_logpages::RingError;
use std::alloc::{AllocError, Global};

/// The call of this kind with this number fails.
pub fn one_fail(alloc: Global, kind: Kind, number: u64) -> Result<Vec<Fail>, AllocError> {
    let fails = vec![in alloc;
        Fail {
            part: Part::Whole,
            kind,
            first: number,
            last: number
        },
    ]?;
    Ok(fails)
}

/// A disk of 256 pages, of whose calls of this kind one fails.
fn disk(alloc: Global, kind: Kind, number: u64) -> Result<MemDisk, AllocError> {
    Ok(MemDisk::new(alloc, 256).with_fails(one_fail(alloc, kind, number)?))
}

/// The part of a log of 256 pages on which two groups were written, as far as no call failed. Each has a SYNCPT, three
/// lists and a COMMIT: 12,180 bytes.
fn two_groups(alloc: Global, disk: MemDisk) -> Result<MemDisk, AllocError> {
    let mut plain = Plain::fresh(alloc, 254)?;
    let mut trial = match Trial::new(disk, 256) {
        Ok(trial) => trial,
        Err(part) => return Ok(part),
    };
    for tid in 1..=2 {
        if plain.size() > 1_000_000_000 {
            break;
        }
        let text = group(alloc, 254, plain.size(), tid, 3)?;
        plain.add(&text)?;
        match trial.write(&text) {
            Ok(written) => trial = written,
            Err(part) => return Ok(part),
        }
    }
    Ok(trial.into_part())
}

// Making the log takes 255 writes, of which the last is the superblock's, and a sync. Behind the 36 bytes on page number 253 the
// first group takes one write, a sync, two writes and a sync, and the second one, which ends on page 258, a write, a sync, three writes
// and a sync. Of each call: where the log ends after it failed, and how many records there are from the newest SYNCPT on.
static ROWS: [(Kind, u64, u32, usize); 13] = [
    (Kind::Sync, 1, 1_044_524, 1),
    (Kind::Write, 256, 1_044_524, 1),
    (Kind::Sync, 2, 1_044_560, 1),
    (Kind::Write, 257, 1_044_560, 1),
    (Kind::Write, 258, 12_264, 3),
    (Kind::Sync, 3, 16_352, 5),
    (Kind::Write, 259, 16_352, 5),
    (Kind::Sync, 4, 16_352, 5),
    (Kind::Write, 260, 16_352, 5),
    (Kind::Write, 261, 20_440, 2),
    (Kind::Write, 262, 24_492, 3),
    (Kind::Sync, 5, 28_580, 5),
    (Kind::Write, 263, 28_580, 5),
];

/// Whether the log ends there, with so many records from the newest SYNCPT on, once this call failed.
fn ends_at(alloc: Global, row: &(Kind, u64, u32, usize)) -> Result<bool, AllocError> {
    let mut part = two_groups(alloc, disk(alloc, row.0, row.1)?)?;
    match read(alloc, &mut part, 256) {
        Ok(read) => Ok(read.end() == row.2 && read.ends().len() == row.3),
        Err(_) => Ok(false),
    }
}

#[test]
fn a_log_ends_before_the_call_that_failed(rt: HostRuntime) {
    for i in 0..ROWS.len() {
        assert!(rt; ends_at(rt.alloc(), &ROWS[i]) == Ok(true), "row {i}");
    }
}

/// Whether a log isn't read, since it has no superblock, where this write failed.
fn has_none(alloc: Global, number: u64) -> Result<bool, AllocError> {
    let mut part = two_groups(alloc, disk(alloc, Kind::Write, number)?)?;
    match read(alloc, &mut part, 256) {
        Err(RingError::BadLog { address, rule }) => Ok(address == 4096 && rule == Rule::Super),
        _ => Ok(false),
    }
}

// The superblock is written last, so a log that was not made has none.
#[test]
fn a_log_that_is_half_made_is_none(rt: HostRuntime) {
    for number in 1..=255 {
        assert!(rt; has_none(rt.alloc(), number) == Ok(true), "write {number}");
    }
}

/// Whether the log is read, as one of its reads fails: each by its count, and those behind the last one not at all.
fn tells_reads(alloc: Global) -> Result<bool, AllocError> {
    let mut part = two_groups(alloc, MemDisk::new(alloc, 256))?;
    for number in 1..=383 {
        part = part.with_fails(one_fail(alloc, Kind::Read, number)?);
        if !tells_read(alloc, &mut part, number) {
            return Ok(false);
        }
    }
    Ok(true)
}

/// Whether the read that fails is told, if there are so many.
fn tells_read(alloc: Global, part: &mut MemDisk, number: u64) -> bool {
    match read(alloc, part, 256) {
        Err(RingError::Read(fault)) => {
            number <= 382
                && fault
                    == Fault {
                        part: Part::Whole,
                        count: number,
                    }
        }
        Ok(_) => number == 383,
        Err(_) => false,
    }
}

// A log of 256 pages is read by one read of its superblock, 254 of the ring's numbers and 127 of the newest half's text.
#[test]
fn a_read_that_fails_is_told(rt: HostRuntime) {
    assert!(rt; tells_reads(rt.alloc()) == Ok(true));
}
