//! Redo of whole volumes of 4,096 pages, made by hand from a new one.
//!
//! A new volume has 3,008 blocks. Pages 16 to 20 are the block map's file, 27 and 28 the inode map's, and 29 has the inodes 0 to 7. Its log is the one that a mount makes: one SYNCPT, and nothing behind it.

ghost use Rattle.std.specs.Prelude.{IfSome};
ghost use Rattle.jfs_super.specs.Rules.{IsAccepted};
ghost use Rattle.jfs_super.specs.Super.{FitsSuper};

use jfs_bits::{Moment, Rule, put_u32};
use jfs_check::check;
use jfs_disk::{Disk, Fail, Fault, Kind, MemDisk, Page, Part, SureDisk};
use jfs_format::format;
use jfs_mount::BadMount;
use jfs_redo::{RedoError, Redone, redo};
use jfs_super::{Super, VolumeState, read_super};
use std::alloc::Global;
use std::test::*;
use uuid::Uuid;

/// A page, a place in it, and a number of 4 bytes there.
pub type Word = (u32, usize, u32);

/// Inode 4, a regular file with two blocks, 33 and 34, and the root's name `a` for it. No map tells of the inode; the block map has both blocks, but in its bits alone.
#[rattlefmt::skip]
static ONE_FILE: [Word; 17] = [
    (29, 2056, 4), (29, 2072, 8192), (29, 2080, 2), (29, 2088, 1), (29, 2100, 0x0001_81a4), (29, 2288, 0x0003_0083), (29, 2292, 18), (29, 2304, 0), (29, 2308, 0), (29, 2312, 2), (29, 2316, 33),
    (29, 1264, 0x0207_0183), (29, 1272, 1), (29, 1280, 4), (29, 1284, 0x0061_01ff), (20, 3076, 0xe000_0000), (20, 3080, 0),
];

/// The place of the state in the superblock, on page 8.
const STATE: usize = 40;

/// A new volume that says it is mounted, with these words instead of its own.
pub fn dirty<D: Disk>(disk: &mut D, words: &[Word]) -> bool {
    let now = Moment { sec: 1000, nano: 7 };
    if format(disk, Uuid::from_bytes([7; 16]), b"data", now).is_err() {
        return false;
    }
    for (n, at, value) in words {
        put_word(disk, *n, *at, *value);
    }
    put_word(disk, 8, STATE, 1);
    true
}

pub fn put_word<D: Disk>(disk: &mut D, n: u32, at: usize, value: u32) {
    if n >= disk.pages() || at > 4092 {
        return;
    }
    let mut page = Page::zeros();
    if disk.read(n, &mut page).is_err() {
        return;
    }
    put_u32(&mut page.0, at, value);
    if disk.write(n, &page).is_err() {
        return;
    }
}

fn superblock<D: Disk>(disk: &mut D) -> Option<Super>
    ensures accepted { IfSome result (λ s. IsAccepted s (D.page_count disk.new)) }
    ensures fits { IfSome result FitsSuper }
{
    let pages = disk.pages();
    if pages < 9 {
        return None;
    }
    let mut page = Page::zeros();
    if disk.read(8, &mut page).is_err() {
        return None;
    }
    read_super(&page, pages).ok()
}

/// What redo of the volume answers.
pub fn redone<D: Disk>(alloc: Global, disk: &mut D) -> Option<Result<Redone, RedoError>> {
    let s = superblock(disk)?;
    Some(redo(alloc, disk, &s))
}

/// Whether the volume is clean, and how many findings a check has, free blocks and inodes in use.
fn state_of<D: Disk>(alloc: Global, disk: &mut D) -> Option<(bool, usize, u32, u32)> {
    let s = superblock(disk)?;
    let found = check(alloc, disk, &s).ok()?;
    Some((
        s.state == VolumeState::CLEAN,
        found.findings.len(),
        found.free,
        found.inodes,
    ))
}

/// What redo answers of a new volume with these words, and what the volume is then.
fn after(alloc: Global, words: &[Word]) -> Option<(Option<u32>, (bool, usize, u32, u32))> {
    let mut disk = SureDisk::new(alloc, 4096).ok()?;
    if !dirty(&mut disk, words) {
        return None;
    }
    let done = redone(alloc, &mut disk)?.ok().map(|done| done.transactions);
    Some((done, state_of(alloc, &mut disk)?))
}

#[test]
fn maps_follow_from_the_inodes(rt: HostRuntime) {
    let alloc = rt.alloc();
    assert!(rt; after(alloc, &[]) == Some((Some(0), (true, 0, 2975, 4))));
    assert!(rt; after(alloc, &ONE_FILE) == Some((Some(0), (true, 0, 2973, 5))));
    // The lowest level of the block map's tree, and the inode map's counts, whatever they were.
    assert!(rt;
        after(
            alloc,
            &[
                (19, 100, 0x0101_0101),
                (20, 40, 7),
                (27, 8, 99),
                (28, 40, 5)
            ]
        ) == Some((Some(0), (true, 0, 2975, 4)))
    );
}

/// What redo answers of a disk in memory on which calls fail, and then without fails.
fn failing(
    alloc: Global,
    kind: Kind,
    first: u64,
) -> Option<(Result<Redone, RedoError>, Option<Result<Redone, RedoError>>)> {
    let mut disk = MemDisk::new(alloc, 4096);
    if !dirty(&mut disk, &ONE_FILE) {
        return None;
    }
    let s = superblock(&mut disk)?;
    let mut fails = Vec::new(alloc);
    fails
        .push(Fail {
            part: Part::Whole,
            kind,
            first,
            last: first,
        })
        .ok()?;
    let mut disk = disk.with_fails(fails);
    let came = redo(alloc, &mut disk, &s);
    let again = redone(alloc, &mut disk);
    Some((came, again))
}

#[test]
fn a_redo_that_failed_is_made_again(rt: HostRuntime) {
    let alloc = rt.alloc();
    let fault = Err(RedoError::Disk(Fault {
        part: Part::Whole,
        count: 1,
    }));
    let done = Some(Ok(Redone { transactions: 0 }));
    assert!(rt; failing(alloc, Kind::Read, 1) == Some((fault, done)));
    assert!(rt; failing(alloc, Kind::Read, 1100) == Some((fault, done)));
    assert!(rt; failing(alloc, Kind::Write, 1) == Some((fault, done)));
    assert!(rt; failing(alloc, Kind::Write, 6) == Some((fault, done)));
    assert!(rt; failing(alloc, Kind::Sync, 1) == Some((fault, done)));
    assert!(rt; failing(alloc, Kind::Sync, 2) == Some((fault, done)));
}

/// Why the volume is refused, and whether it says that it is clean.
fn why_not<D: Disk>(alloc: Global, disk: &mut D) -> Option<(RedoError, bool)> {
    match redone(alloc, disk)? {
        Ok(_) => None,
        Err(why) => Some((why, superblock(disk)?.state == VolumeState::CLEAN)),
    }
}

/// The same of a new volume with these words.
fn refused(alloc: Global, words: &[Word]) -> Option<(RedoError, bool)> {
    let mut disk = SureDisk::new(alloc, 4096).ok()?;
    if !dirty(&mut disk, words) {
        return None;
    }
    why_not(alloc, &mut disk)
}

/// Words of a volume, and why it is refused. The log begins at page 3072; its superblock is the second page, with the label at byte 52, and its only SYNCPT stands on its last page.
#[rattlefmt::skip]
static REFUSED: [(&[Word], RedoError); 7] = [
    (&[(3073, 52, 0x6568_746f), (3073, 56, 0x72), (3073, 60, 0), (3073, 64, 0)], RedoError::ForeignLog { label: [b'o', b't', b'h', b'e', b'r', 0, 0, 0, 0, 0, 0, 0, 0, 0, 0, 0] }),
    (&[(3073, 0, 5)], RedoError::BadLog { address: 4096, rule: Rule::Super }),
    (&[(4095, 16, 0x2000)], RedoError::BadLog { address: 4_190_252, rule: Rule::BadType }),
    (&[(16, 0, 3007)], RedoError::BadImage(BadMount { rule: Rule::Mapsize, page: 16, value: 3007 })),
    (&[(27, 4, 0)], RedoError::BadImage(BadMount { rule: Rule::Nextiag, page: 27, value: 0 })),
    // The first inode extent lies behind the volume.
    (&[(28, 3076, 4000)], RedoError::BadImage(BadMount { rule: Rule::Extents, page: 28, value: 4000 })),
    // The log comes before the maps.
    (&[(28, 3076, 4000), (3073, 0, 5)], RedoError::BadLog { address: 4096, rule: Rule::Super }),
];

#[test]
fn a_log_or_maps_that_break_a_rule_are_refused(rt: HostRuntime) {
    let alloc = rt.alloc();
    for (words, why) in REFUSED.iter() {
        assert!(rt; refused(alloc, words) == Some((*why, false)), "{words:?}");
    }
}

/// Whether page `n` is zeros now.
fn clear<D: Disk>(disk: &mut D, n: u32) -> bool {
    n < disk.pages() && disk.write(n, &Page::zeros()).is_ok()
}

/// The same of a new volume whose log has zeros on each page of its ring, from 3074 on.
fn refused_without_ring(alloc: Global) -> Option<(RedoError, bool)> {
    let mut disk = SureDisk::new(alloc, 4096).ok()?;
    if !dirty(&mut disk, &[]) {
        return None;
    }
    for n in 3074..4096 {
        if !clear(&mut disk, n) {
            return None;
        }
    }
    why_not(alloc, &mut disk)
}

// Such a page has the number 0 at both ends, which is one page's alone.
#[test]
fn a_ring_of_zeros_is_refused(rt: HostRuntime) {
    let why = RedoError::BadLog {
        address: 0,
        rule: Rule::Ring,
    };
    assert!(rt; refused_without_ring(rt.alloc()) == Some((why, false)));
}
