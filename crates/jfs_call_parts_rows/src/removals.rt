//! Directories that go.

use crate::unlinks::{Left, answer_of, map_of_five, why_kept};
use crate::volume::{BLOCKS, Word, is_short, path_of, volume_with};
use jfs_bits::Moment;
use jfs_disk::{Disk, Part, SureDisk};
use jfs_imap::InodeMap;
use jfs_plain::Refusal;
use jfs_ranges::Tx;
use jfs_reader::DiskView;
use jfs_unlink::remove_directory;
use std::alloc::Global;
use std::test::*;

const NOW: Moment = Moment { sec: 2000, nano: 9 };

/// The transaction of a removal of a path of one unit, or why it is refused.
fn removed(
    alloc: Global,
    disk: &mut SureDisk,
    map: &InodeMap,
    unit: u16,
) -> Option<Result<Tx, Refusal>> {
    let path = path_of(alloc, unit)?;
    let path = path.as_slice();
    if disk.pages() < BLOCKS || !is_short(path) {
        return None;
    }
    let mut view = DiskView::new(disk, Part::Whole, BLOCKS);
    Some(remove_directory(alloc, &mut view, map, path, NOW))
}

/// What a removal leaves, or why it is refused. An unlink of `a` is refused, since it is a directory.
fn answered(
    alloc: Global,
    disk: &mut SureDisk,
    map: &InodeMap,
    unit: u16,
) -> Option<Result<Left, Refusal>> {
    if why_kept(alloc, disk, map, 97) != Some(Refusal::IsDir) {
        return None;
    }
    match removed(alloc, disk, map, unit)? {
        Ok(tx) => answer_of(alloc, disk, &tx),
        Err(why) => Some(Err(why)),
    }
}

/// The same of a new volume with these words.
fn came(alloc: Global, words: &[Word], unit: u16) -> Option<Result<Left, Refusal>> {
    let map = map_of_five(alloc)?;
    let mut disk = volume_with(alloc, words)?;
    answered(alloc, &mut disk, &map, unit)
}

/// Inode 4 is an empty directory, which the root directory names `a`.
#[rattlefmt::skip]
const EMPTY: &[Word] = &[
    (1064, 3), (1264, 0x0207_0183), (1272, 1), (1280, 4), (1284, 0x0061_01ff),
    (2056, 4), (2088, 2), (2100, 0x41ed), (2288, 0x0108_0083), (2292, 2), (2304, 0x0102), (2336, 0x0103), (2368, 0x0104), (2400, 0x0105), (2432, 0x0106), (2464, 0x0107), (2496, 0x0108), (2528, 0x01ff),
];

/// The same with a name `c` in it.
#[rattlefmt::skip]
const FULL: &[Word] = &[
    (1064, 3), (1264, 0x0207_0183), (1272, 1), (1280, 4), (1284, 0x0061_01ff),
    (2056, 4), (2088, 2), (2100, 0x41ed), (2288, 0x0207_0183), (2292, 2), (2296, 1), (2304, 4), (2308, 0x0063_01ff), (2336, 0x0103), (2368, 0x0104), (2400, 0x0105), (2432, 0x0106), (2464, 0x0107), (2496, 0x0108), (2528, 0x01ff),
];

const GONE: Left = Left {
    root_links: 2,
    links: 0,
    names: 0,
    freed: 0,
};

/// The directory, which name goes, and what is left.
static ROWS: [(&[Word], u16, Result<Left, Refusal>); 3] = [
    (EMPTY, 97, Ok(GONE)),
    (FULL, 97, Err(Refusal::NotEmpty)),
    (EMPTY, 98, Err(Refusal::NotFound)),
];

#[test]
fn directories_go(rt: HostRuntime) {
    for (words, unit, what) in ROWS.iter() {
        assert!(rt; came(rt.alloc(), words, *unit) == Some(*what));
    }
}

/// Why a removal of this path is refused.
fn why_stays(alloc: Global, disk: &mut SureDisk, map: &InodeMap, unit: u16) -> Option<Refusal> {
    removed(alloc, disk, map, unit)?.err()
}

// The root stays.
#[test]
fn the_root_stays(rt: HostRuntime) {
    let alloc = rt.alloc();
    let map = map_of_five(alloc).expect(&rt, "memory");
    let mut disk = SureDisk::new(alloc, 4096).expect(&rt, "memory");
    assert!(rt; why_stays(alloc, &mut disk, &map, 0) == Some(Refusal::IntoItself));
}
