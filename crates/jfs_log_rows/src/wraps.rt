//! Logs that go round their ring.

use crate::groups::{group, read};
use crate::plain::Plain;
use crate::trial::Trial;
use jfs_disk::MemDisk;
use std::alloc::{AllocError, Global};

/// Writes so many groups to a log of 256 pages, each by one list larger than the one before, and whether
/// the ring then reads as their text.
fn reads_back(alloc: Global, groups: u32) -> Result<bool, AllocError> {
    let mut plain = Plain::fresh(alloc, 254)?;
    let disk = MemDisk::new(alloc, 256);
    let Ok(trial) = Trial::new(disk, 256) else {
        return Ok(false);
    };
    let mut trial = trial;
    for lists in 0..groups {
        if lists > 1000 || plain.size() > 1_000_000_000 {
            return Ok(false);
        }
        let text = group(alloc, 254, plain.size(), lists + 1, lists)?;
        plain.add(&text)?;
        match trial.write(&text) {
            Ok(written) => trial = written,
            Err(_) => return Ok(false),
        }
    }
    let mut part = trial.into_part();
    match read(alloc, &mut part, 256) {
        Ok(read) => Ok(plain.is_read(&read)),
        Err(_) => Ok(false),
    }
}

// The last group takes 63 ring pages at most, a quarter of the ring, and all of them go round it more than seven times. What is read
// is half a ring, so that each group's text is read once at least where every second one is the last. A group with one list more has no room.
#[test]
fn groups_of_all_sizes_are_read_back(rt: HostRuntime) {
    for pairs in 0..32 {
        assert!(rt;
            reads_back(rt.alloc(), 2 * pairs + 1) == Ok(true),
            "{pairs} pairs"
        );
    }
    assert!(rt; reads_back(rt.alloc(), 64) == Ok(false));
}
