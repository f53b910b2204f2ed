//! A list of mixed calls, with no fault and with each device call failing in turn.

use crate::plain::{PAGES, Plain};
use crate::rows::{Do, agrees, step};
use jfs_disk::{Fail, Kind, MemDisk, Part};
use jfs_pages::PageCache;
use std::alloc::{AllocError, Global};
use std::test::Fail as TestFail;

static CALLS: [Do; 22] = [
    // one line; the last bytes of a page and the first of the next; four pages whole
    Do::Edit(1, 2, 3, 16, 0x11, 5),
    Do::Edit(2, 2, 255, 32, 0x22, 5),
    Do::Edit(3, 0, 0, 16384, 0x33, 4),
    // its last entry isn't told, then it is
    Do::Home(2, 2),
    Do::Home(2, 3),
    // again dirty, with a new first entry
    Do::Edit(4, 2, 0, 16, 0x44, 4),
    Do::Home(2, 3),
    Do::Sync,
    // a block under a dirty page, and under a clean one
    Do::Put(1, 0x55),
    Do::Home(3, 9),
    Do::Put(3, 0x66),
    // a map page gets its canonical bytes
    Do::Refresh(4, 0x77),
    Do::Home(4, 4),
    // dropped: what the disk holds is seen again
    Do::Forget(1),
    Do::Forget(0),
    Do::Edit(5, 1, 17, 16, 0x88, 5),
    Do::Home(1, 4),
    Do::Home(1, 5),
    Do::Home(5, 5),
    Do::Home(2, 18446744073709551615),
    // no page is dirty
    Do::Home(0, 9),
    Do::Sync,
];

/// Whether the cache does what the model does, where one device call of a kind fails.
fn runs(alloc: Global, kind: Kind, number: u64) -> Result<bool, AllocError> {
    let mut fails = Vec::new(alloc);
    fails.push(Fail {
        part: Part::Whole,
        kind,
        first: number,
        last: number,
    })?;
    let disk = MemDisk::new(alloc, PAGES).with_fails(fails);
    let mut cache = PageCache::new(alloc, disk, PAGES);
    let mut plain = Plain::new(alloc)?;
    for call in CALLS.iter() {
        if !step(alloc, &mut cache, &mut plain, *call)? || !agrees(&mut cache, &plain)? {
            return Ok(false);
        }
    }
    Ok(true)
}

#[test]
fn without_a_fault(rt: HostRuntime) -> Result<(), TestFail> {
    assert!(rt; runs(rt.alloc(), Kind::Read, 0)?);
    Ok(())
}

#[test]
fn each_read_fails_in_turn(rt: HostRuntime) -> Result<(), TestFail> {
    for number in 1..14 {
        assert!(rt; runs(rt.alloc(), Kind::Read, number)?);
    }
    Ok(())
}

#[test]
fn each_write_fails_in_turn(rt: HostRuntime) -> Result<(), TestFail> {
    for number in 1..12 {
        assert!(rt; runs(rt.alloc(), Kind::Write, number)?);
    }
    Ok(())
}

#[test]
fn each_sync_fails_in_turn(rt: HostRuntime) -> Result<(), TestFail> {
    for number in 1..3 {
        assert!(rt; runs(rt.alloc(), Kind::Sync, number)?);
    }
    Ok(())
}
