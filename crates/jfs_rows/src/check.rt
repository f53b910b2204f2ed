//! The command `check` on a new volume and on changes of it. Texts are worked out by hand.

use crate::refusals::{Change, change};
use crate::volume::{after, after_number, came, failing, fails_at};
use jfs_command::Status;
use jfs_disk::{Disk, Kind, MemDisk, Page};
use jfs_io::SureSink;
use std::alloc::Global;
use std::sync::Wait;
use std::thread::Threads;

const UUID: &str = "00112233-4455-6677-8899-aabbccddeeff";

pub const CLEAN: &str = "clean, 2975 free blocks, 4 inodes\n";

const MOUNTED: &str = "jfsd: bad image: page 8 rule state value 1\n";

const TAKEN: &str = "14 map page 20 value 33\n15 bmap page 20 value 0\nfound 2\n";

/// A page of the new volume, a change of it, the status's number, and the text. Page 20 has the map of all blocks: the second
/// word of what persists has the bit of block 32 alone, and 33 is the first free block.
static ROWS: [(u32, Change, u8, &str); 5] = [
    (8, (40, 4, 0), 0, CLEAN),
    (8, (40, 4, 2), 0, CLEAN),
    (8, (40, 4, 4), 0, CLEAN),
    (8, (40, 4, 1), 3, MOUNTED),
    (20, (3076, 4, 0xc000_0000), 1, TAKEN),
];

/// A disk of 4,096 pages with a new volume.
pub fn new_volume<R: Threads + Wait + Sync>(rt: &R, alloc: Global) -> Option<MemDisk> {
    let words = ["format", "I", UUID, "data"];
    let disk = Some(MemDisk::new(alloc, 4096));
    let mut out = SureSink::new(alloc);
    let came = came(rt, alloc, &words, disk, &mut out)?;
    Some(came.disk)
}

/// The disk with a change of one page.
pub fn altered(disk: Option<MemDisk>, n: u32, changed: Change) -> Option<MemDisk> {
    let mut disk = disk?;
    let mut page = Page::zeros();
    if n >= disk.pages() {
        return None;
    }
    disk.read(n, &mut page).ok()?;
    change(&mut page, &[changed]);
    disk.write(n, &page).ok()?;
    Some(disk)
}

#[test]
fn lists_what_is_wrong(rt: HostRuntime) {
    let alloc = rt.alloc();
    for (n, changed, number, text) in ROWS.iter() {
        let disk = altered(new_volume(&rt, alloc), *n, *changed);
        let words = ["check", "I"];
        assert!(rt;
            after_number(&rt, alloc, &words, disk, *number, text).is_some(),
            "{text}"
        );
    }
}

/// Whether a fault ends the command where this read fails; `None` where it is not made and the volume is clean.
fn is_fault<R: Threads + Wait + Sync>(rt: &R, alloc: Global, n: u64) -> Option<bool> {
    let disk = failing(alloc, new_volume(rt, alloc), fails_at(Kind::Read, n, n));
    let mut out = SureSink::new(alloc);
    let came = came(rt, alloc, &["check", "I"], disk, &mut out)?;
    if came.disk.faults() == 0 && came.status == Status::Done && out.bytes() == CLEAN.as_bytes() {
        return None;
    }
    let text = b"jfsd: disk fault\n".as_slice();
    Some(came.disk.faults() == 1 && came.status == Status::DiskFault && out.bytes() == text)
}

#[test]
fn a_disk_that_fails_at_each_read(rt: HostRuntime) {
    let alloc = rt.alloc();
    let mut last = 0;
    for n in 1..1000 {
        if is_fault(&rt, alloc, n) != Some(true) {
            last = n;
            break;
        }
    }
    // Each read that is made was looked at: the volume has twelve pages of its own that a check reads.
    assert!(rt; 12 < last && is_fault(&rt, alloc, last).is_none());
}
