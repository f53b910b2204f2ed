//! Names of a file that go.

use crate::volume::{BLOCKS, Word, freed_by, is_short, map_at, page_of, path_of, volume_with};
use jfs_bits::Moment;
use jfs_disk::{Disk, Part, SureDisk};
use jfs_imap::InodeMap;
use jfs_inode::{Dinode, inode_in};
use jfs_plain::Refusal;
use jfs_ranges::{Tx, apply};
use jfs_reader::{DiskView, names_of};
use jfs_unlink::unlink;
use std::alloc::Global;
use std::test::*;

const NOW: Moment = Moment { sec: 2000, nano: 9 };

/// What a transaction leaves: the links of the root directory and of inode 4, how many names the root directory has, and how many blocks are freed.
#[derive(Clone, Copy, PartialEq, Eq)]
pub struct Left {
    pub root_links: u32,
    pub links: u32,
    pub names: usize,
    pub freed: u32,
}

/// What a transaction leaves, where the root directory's names stay in its inode.
fn left_by(alloc: Global, disk: &mut SureDisk, tx: &Tx) -> Option<Left> {
    let mut page = page_of(disk, 29);
    apply(tx, 29, &mut page);
    let root = inode_in(&page, 2);
    let names = count_of(alloc, disk, &root)?;
    Some(Left {
        root_links: root.nlink,
        links: inode_in(&page, 4).nlink,
        names,
        freed: freed_by(tx),
    })
}

/// How many names a directory has.
fn count_of(alloc: Global, disk: &mut SureDisk, d: &Dinode) -> Option<usize> {
    if disk.pages() < BLOCKS {
        return None;
    }
    let mut view = DiskView::new(disk, Part::Whole, BLOCKS);
    match names_of(alloc, &mut view, d) {
        Ok(names) => Some(names.len()),
        Err(_) => None,
    }
}

/// The transaction of an unlink of a path of one unit, or why it is refused.
pub fn unlinked(
    alloc: Global,
    disk: &mut SureDisk,
    map: &InodeMap,
    unit: u16,
    limit: u64,
) -> Option<Result<Tx, Refusal>> {
    let path = path_of(alloc, unit)?;
    let path = path.as_slice();
    if disk.pages() < BLOCKS || !is_short(path) {
        return None;
    }
    let mut view = DiskView::new(disk, Part::Whole, BLOCKS);
    Some(unlink(alloc, &mut view, map, path, limit, NOW))
}

/// The inode map: inodes 0 to 4 are in use.
pub fn map_of_five(alloc: Global) -> Option<InodeMap> {
    map_at(alloc, 29, 0xf800_0000).ok()
}

/// What an unlink leaves, or why it is refused.
fn answered(
    alloc: Global,
    disk: &mut SureDisk,
    map: &InodeMap,
    unit: u16,
    limit: u64,
) -> Option<Result<Left, Refusal>> {
    match unlinked(alloc, disk, map, unit, limit)? {
        Ok(tx) => answer_of(alloc, disk, &tx),
        Err(why) => Some(Err(why)),
    }
}

/// What a transaction leaves, as an answer.
pub fn answer_of(alloc: Global, disk: &mut SureDisk, tx: &Tx) -> Option<Result<Left, Refusal>> {
    match left_by(alloc, disk, tx) {
        Some(left) => Some(Ok(left)),
        None => None,
    }
}

/// The same of a new volume with these words.
fn came(alloc: Global, words: &[Word], unit: u16, limit: u64) -> Option<Result<Left, Refusal>> {
    let map = map_of_five(alloc)?;
    let mut disk = volume_with(alloc, words)?;
    answered(alloc, &mut disk, &map, unit, limit)
}

/// Inode 4 is a file of 20,000 bytes with five blocks of data from block 300 on, and attributes in three blocks from block 200 on. It has one link, and the root directory names it `a`.
#[rattlefmt::skip]
const ONE_NAME: &[Word] = &[
    (1264, 0x0207_0183), (1272, 1), (1280, 4), (1284, 0x0061_01ff),
    (2056, 4), (2072, 20_000), (2088, 1), (2100, 0x81a4), (2152, 0x20), (2156, 9000), (2160, 3), (2164, 200), (2288, 0x0003_0083), (2292, 18), (2312, 5), (2316, 300),
];

/// The same file with two links, which the root directory names `a` and `b`.
#[rattlefmt::skip]
const TWO_NAMES: &[Word] = &[
    (1264, 0x0306_0283), (1272, 0x0201), (1280, 4), (1284, 0x0061_01ff), (1312, 4), (1316, 0x0062_01ff),
    (2056, 4), (2072, 20_000), (2088, 2), (2100, 0x81a4), (2152, 0x20), (2156, 9000), (2160, 3), (2164, 200), (2288, 0x0003_0083), (2292, 18), (2312, 5), (2316, 300),
];

const ONE_LEFT: Left = Left {
    root_links: 2,
    links: 1,
    names: 1,
    freed: 0,
};

const NONE_LEFT: Left = Left {
    root_links: 2,
    links: 0,
    names: 0,
    freed: 8,
};

/// The file's names, which name goes with which limit, and what is left: with its last name go five blocks of data and three of attributes.
static ROWS: [(&[Word], u16, u64, Result<Left, Refusal>); 5] = [
    (TWO_NAMES, 97, 100, Ok(ONE_LEFT)),
    (TWO_NAMES, 98, 100, Ok(ONE_LEFT)),
    (ONE_NAME, 97, 20_000, Ok(NONE_LEFT)),
    (ONE_NAME, 97, 19_999, Err(Refusal::FileTooBig)),
    (ONE_NAME, 98, 20_000, Err(Refusal::NotFound)),
];

#[test]
fn files_lose_names(rt: HostRuntime) {
    for (words, unit, limit, what) in ROWS.iter() {
        assert!(rt; came(rt.alloc(), words, *unit, *limit) == Some(*what));
    }
}

/// Why an unlink of this path is refused.
pub fn why_kept(alloc: Global, disk: &mut SureDisk, map: &InodeMap, unit: u16) -> Option<Refusal> {
    unlinked(alloc, disk, map, unit, 0)?.err()
}

// The root has no name to lose.
#[test]
fn the_root_is_a_directory(rt: HostRuntime) {
    let alloc = rt.alloc();
    let map = map_of_five(alloc).expect(&rt, "memory");
    let mut disk = SureDisk::new(alloc, 4096).expect(&rt, "memory");
    assert!(rt; why_kept(alloc, &mut disk, &map, 0) == Some(Refusal::IsDir));
}
