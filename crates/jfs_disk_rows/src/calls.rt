//! Reads, writes and syncs, failing ones among them, and what a crash then leaves.

ghost use Rattle.std.specs.Prelude.{◌≡◌, ◌<◌};
ghost use Rattle.jfs_disk.specs.Memory.{page_count_of};

use crate::row::{crash, failing, fill, is_filled, reads};
use jfs_disk::{Choice, Disk, DiskError, Fail, Kind, MemDisk, Page, Part, SureDisk, write_stable};
use std::alloc::Global;
use std::test::*;

/// A choice of page 0, and the page that it leaves: `at` bytes `front`, then the rest `rest`.
#[derive(Clone, Copy)]
struct Row {
    base: u32,
    top: u32,
    sectors: u32,
    front: u8,
    at: usize,
    rest: u8,
}

// After a page of zeros was written with 01 and then with 02, content 0 is zeros, 1 is 01 and 2 is 02.
// The last three choices don't fit, and the page keeps what a read gave.
static ROWS: [Row; 9] = [
    Row {
        base: 0,
        top: 1,
        sectors: 1,
        front: 1,
        at: 512,
        rest: 0,
    },
    Row {
        base: 0,
        top: 2,
        sectors: 0,
        front: 2,
        at: 0,
        rest: 0,
    },
    Row {
        base: 0,
        top: 2,
        sectors: 7,
        front: 2,
        at: 3584,
        rest: 0,
    },
    Row {
        base: 1,
        top: 2,
        sectors: 8,
        front: 2,
        at: 4096,
        rest: 1,
    },
    Row {
        base: 1,
        top: 2,
        sectors: 1,
        front: 2,
        at: 512,
        rest: 1,
    },
    Row {
        base: 1,
        top: 1,
        sectors: 3,
        front: 1,
        at: 4096,
        rest: 1,
    },
    Row {
        base: 0,
        top: 3,
        sectors: 1,
        front: 2,
        at: 4096,
        rest: 2,
    },
    Row {
        base: 2,
        top: 1,
        sectors: 1,
        front: 2,
        at: 4096,
        rest: 2,
    },
    Row {
        base: 0,
        top: 1,
        sectors: 9,
        front: 2,
        at: 4096,
        rest: 2,
    },
];

/// Whether page 0 is as the row says after its choice, once it was written twice.
fn is_left(alloc: Global, row: &Row) -> bool {
    let mut disk = MemDisk::new(alloc, 1);
    if fill(&mut disk, 0, 1).is_err() || fill(&mut disk, 0, 2).is_err() {
        return false;
    }
    let choice = Choice {
        page: 0,
        base: row.base,
        top: row.top,
        sectors: row.sectors,
    };
    let mut crashed = crash(disk, &[choice]);
    reads(&mut crashed, 0, row.front, row.at, row.rest)
}

#[test]
fn choices_tear_a_page(rt: HostRuntime) {
    for row in ROWS.iter() {
        assert!(rt; is_left(rt.alloc(), row));
    }
}

/// Whether a write of a page with one byte succeeds, and the next one with another byte fails.
fn writes_once(disk: &mut MemDisk, n: u32, byte: u8, other: u8) -> bool
    requires { n < page_count_of disk.old }
    ensures { page_count_of disk.new ≡ page_count_of disk.old }
{
    fill(disk, n, byte).is_ok() && fill(disk, n, other) == Err(DiskError::Failed)
}

// A failed write leaves the page as it was, and is pending behind what a read gives: contents 00, 01, 01, 02.
#[test]
fn a_failed_write_is_pending(rt: HostRuntime) {
    let fail = Fail {
        part: Part::Whole,
        kind: Kind::Write,
        first: 2,
        last: 2,
    };
    let mut disk = failing(rt.alloc(), 2, fail).expect(&rt, "memory");
    assert!(rt; writes_once(&mut disk, 1, 1, 2));
    assert!(rt; (disk.faults(), disk.lost_writes()) == (1, 0));
    assert!(rt; is_filled(&mut disk, 1, 1));
    let choice = Choice {
        page: 1,
        base: 0,
        top: 3,
        sectors: 1,
    };
    let mut crashed = crash(disk, &[choice]);
    assert!(rt; crashed.faults() == 0);
    assert!(rt; reads(&mut crashed, 1, 2, 512, 0));
    assert!(rt; is_filled(&mut crashed, 0, 0));
}

/// A disk with a page of 01 that was written is synced, which fails, and perhaps again: whether that is so, and a crash that tears the first sector then leaves so many bytes 01.
fn settles(alloc: Global, again: bool, at: usize) -> Option<bool> {
    let fail = Fail {
        part: Part::Whole,
        kind: Kind::Sync,
        first: 1,
        last: 1,
    };
    let mut disk = failing(alloc, 1, fail)?;
    let mut good = fill(&mut disk, 0, 1).is_ok();
    good &= disk.sync() == Err(DiskError::Failed);
    good &= disk.faults() == 1;
    if again {
        good &= disk.sync().is_ok();
    }
    let choice = Choice {
        page: 0,
        base: 0,
        top: 1,
        sectors: 1,
    };
    let mut crashed = crash(disk, &[choice]);
    Some(good && reads(&mut crashed, 0, 1, at, 0))
}

// A failed sync leaves the write pending; a sync that succeeds makes it stable.
#[test]
fn a_sync_settles_where_it_succeeds(rt: HostRuntime) {
    assert!(rt; settles(rt.alloc(), false, 512) == Some(true));
    assert!(rt; settles(rt.alloc(), true, 4096) == Some(true));
}

// One call of a kind on page 0: whether it succeeds.
fn succeeds<D: Disk>(disk: &mut D, kind: Kind) -> bool
    requires { 0 < D.page_count disk.old }
    ensures { D.page_count disk.new ≡ D.page_count disk.old }
{
    match kind {
        Kind::Read => disk.read(0, &mut Page::zeros()).is_ok(),
        Kind::Write => fill(disk, 0, 0).is_ok(),
        Kind::Sync => disk.sync().is_ok(),
    }
}

/// Whether of three calls of a kind the second one fails, where that of a part is planned, if any does; and how many do.
fn faults_of(alloc: Global, part: Part, kind: Kind) -> Option<(bool, bool, bool, u64)> {
    let (first, last) = (2, 2);
    let fail = Fail {
        part,
        kind,
        first,
        last,
    };
    let mut disk = failing(alloc, 1, fail)?;
    let one = succeeds(&mut disk, kind);
    let two = succeeds(&mut disk, kind);
    let three = succeeds(&mut disk, kind);
    Some((one, two, three, disk.faults()))
}

static PARTS: [(Part, u64); 3] = [(Part::Whole, 1), (Part::Low, 0), (Part::High, 0)];

// The second call of a kind fails on a disk that is whole; fails of the other parts are not its own.
#[test]
fn calls_fail_on_their_own_part(rt: HostRuntime) {
    for (part, faults) in PARTS.iter() {
        let wanted = Some((true, *faults == 0, true, *faults));
        assert!(rt; faults_of(rt.alloc(), *part, Kind::Read) == wanted);
        assert!(rt; faults_of(rt.alloc(), *part, Kind::Write) == wanted);
        assert!(rt; faults_of(rt.alloc(), *part, Kind::Sync) == wanted);
    }
}

fn writes_and_reads<D: Disk>(disk: &mut D) -> bool
    requires { 1 < D.page_count disk.old }
{
    write_stable(disk, 1, &Page([7; 4096])).is_ok() && is_filled(disk, 1, 7)
}

#[test]
fn each_disk_keeps_a_stable_write(rt: HostRuntime) {
    let mut sure = SureDisk::new(rt.alloc(), 2).expect(&rt, "memory");
    assert!(rt; sure.pages() == 2);
    assert!(rt; writes_and_reads(&mut sure));
    let mut memory = MemDisk::new(rt.alloc(), 2);
    assert!(rt; writes_and_reads(&mut memory));
}
