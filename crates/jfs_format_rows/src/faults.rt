//! Devices that fail while a volume is made, and crashes.

use crate::pages::{MOMENT, UUID, is_page, wanted};
use jfs_disk::{Choice, Disk, Fail, Fault, Kind, MemDisk, Page, Part};
use jfs_format::{FormatError, format};
use std::alloc::Global;
use std::test::Fail as TestFail;
use uuid::Uuid;

/// 24 pages of the file system part, 1,023 of the log, and the superblock.
const WRITES: u64 = 24 + 1023 + 1;

/// A disk of 4,096 pages with a mark on page 8, of which one later call of a kind fails.
fn disk_with(alloc: Global, kind: Kind, number: u64) -> Result<MemDisk, TestFail> {
    let mut disk = MemDisk::new(alloc, 4096);
    let fail = Fail {
        part: Part::Whole,
        kind,
        first: number,
        last: number,
    };
    if disk.pages() == 4096 {
        let _written = disk.write(8, &Page([0x5a; 4096]));
        let _synced = disk.sync();
    }
    Ok(disk.with_fails(vec![in alloc; fail]?))
}

/// Whether a format ended with the disk's first fault.
fn has_failed(made: Result<(), FormatError>) -> bool {
    let first = Fault {
        part: Part::Whole,
        count: 1,
    };
    matches!(made, Err(FormatError::Disk(fault)) if fault == first)
}

#[test]
fn each_write_failing_leaves_page_8(rt: HostRuntime) -> Result<(), TestFail> {
    for number in 1..WRITES + 1 {
        // of the ring's 1,022 pages, which are alike, each 64th
        if 25 < number && number < WRITES - 3 && number % 64 != 0 {
            continue;
        }
        let mut disk = disk_with(rt.alloc(), Kind::Write, number)?;
        let made = format(&mut disk, Uuid::from_bytes(UUID), b"data", MOMENT);
        assert!(rt; has_failed(made));
        assert!(rt; is_page(&mut disk, 8, &Page([0x5a; 4096])));
    }
    let mut disk = disk_with(rt.alloc(), Kind::Write, WRITES + 1)?;
    assert!(rt; format(&mut disk, Uuid::from_bytes(UUID), b"data", MOMENT).is_ok());
    assert!(rt; is_page(&mut disk, 8, &wanted(8)));
    Ok(())
}

// Before the first sync page 8 isn't written; after it, it is, and all other pages stand.
#[test]
fn each_sync_failing(rt: HostRuntime) -> Result<(), TestFail> {
    let mut disk = disk_with(rt.alloc(), Kind::Sync, 1)?;
    assert!(rt; has_failed(format(&mut disk, Uuid::from_bytes(UUID), b"data", MOMENT)));
    assert!(rt; is_page(&mut disk, 8, &Page([0x5a; 4096])));
    let mut disk = disk_with(rt.alloc(), Kind::Sync, 2)?;
    assert!(rt; has_failed(format(&mut disk, Uuid::from_bytes(UUID), b"data", MOMENT)));
    let torn = Choice {
        page: 8,
        base: 0,
        top: 0,
        sectors: 0,
    };
    let mut crashed = disk.crashed(&[torn]);
    assert!(rt; is_page(&mut crashed, 8, &Page([0x5a; 4096])));
    for n in 9..4096 {
        assert!(rt; is_page(&mut crashed, n, &wanted(n)));
    }
    let mut disk = disk_with(rt.alloc(), Kind::Sync, 3)?;
    assert!(rt; format(&mut disk, Uuid::from_bytes(UUID), b"data", MOMENT).is_ok());
    Ok(())
}

// A format makes no read, so none can fail.
#[test]
fn no_read(rt: HostRuntime) -> Result<(), TestFail> {
    let mut disk = disk_with(rt.alloc(), Kind::Read, 1)?;
    assert!(rt; format(&mut disk, Uuid::from_bytes(UUID), b"data", MOMENT).is_ok());
    assert_eq!(rt; disk.faults(), 0);
    Ok(())
}

static STOPPED: [u64; 9] = [1, 2, 7, 12, 24, 25, 600, 1046, 1047];

// Whether a format fails whose disk stops at that write, and a crash then leaves page 8.
fn keeps_page_8(alloc: Global, number: u64, top: u32) -> Result<bool, TestFail> {
    let mut disk = disk_with(alloc, Kind::Write, number)?;
    if !has_failed(format(&mut disk, Uuid::from_bytes(UUID), b"data", MOMENT)) {
        return Ok(false);
    }
    let mut crashed = disk.crashed(&[choice(8, top), choice(9, top), choice(3073, top)]);
    Ok(is_page(&mut crashed, 8, &Page([0x5a; 4096])))
}

// At whichever write a device stops, a crash leaves page 8 as it was, whatever it leaves of other pages.
#[test]
fn crashes_before_the_superblock(rt: HostRuntime) -> Result<(), TestFail> {
    for number in STOPPED.iter() {
        for top in 0..3 {
            assert!(rt; keeps_page_8(rt.alloc(), *number, top)?, "{number} {top}");
        }
    }
    Ok(())
}

/// A choice that tears content `top` of a page over its stable one.
fn choice(page: u32, top: u32) -> Choice {
    Choice {
        page,
        base: 0,
        top,
        sectors: 4,
    }
}

// After it, nothing is pending: a crash leaves the new volume alone.
#[test]
fn all_is_stable_after_it(rt: HostRuntime) -> Result<(), TestFail> {
    let mut disk = disk_with(rt.alloc(), Kind::Read, 1)?;
    assert!(rt; format(&mut disk, Uuid::from_bytes(UUID), b"data", MOMENT).is_ok());
    let mut crashed = disk.crashed(&[choice(8, 0), choice(9, 0), choice(4095, 0)]);
    for n in 8..4096 {
        assert!(rt; is_page(&mut crashed, n, &wanted(n)));
    }
    Ok(())
}
