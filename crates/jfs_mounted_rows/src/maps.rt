//! The maps that are found of new volumes, and the rules that are broken.

use crate::made::{ONE_FILE, Word, volume_with};
use crate::volume::faulty;
use jfs_bits::Rule;
use jfs_disk::{Disk, Fault, Kind, Page, Part};
use jfs_imap::Pick;
use jfs_mount::BadMount;
use jfs_mounted::mount_maps::{FoundMaps, MapsError, find_maps_on};
use jfs_super::read_super;
use std::alloc::Global;
use std::test::*;

/// The maps of a disk with an accepted superblock, or why none were found.
fn maps_of<D: Disk>(alloc: Global, disk: &mut D) -> Option<Result<FoundMaps, MapsError>> {
    let pages = disk.pages();
    if pages < 9 {
        return None;
    }
    let mut page = Page::zeros();
    if disk.read(8, &mut page).is_err() {
        return None;
    }
    match read_super(&page, pages) {
        Ok(s) => Some(find_maps_on(alloc, disk, &s)),
        Err(_) => None,
    }
}

/// Free, busy and all blocks, where a new inode is had, and the most bytes of a file.
type Told = (u32, u32, u32, Pick, u64);

fn told(alloc: Global, words: &[Word]) -> Option<Told> {
    let mut disk = volume_with(alloc, words)?;
    match maps_of(alloc, &mut disk)? {
        Ok(maps) => Some((
            maps.blocks.free(),
            maps.blocks.busy(),
            maps.blocks.blocks(),
            maps.inodes.pick(),
            maps.file_limit,
        )),
        Err(_) => None,
    }
}

/// Why no maps are found of a new volume with these words instead of its own.
fn refusal(alloc: Global, words: &[Word]) -> Option<MapsError> {
    let mut disk = volume_with(alloc, words)?;
    match maps_of(alloc, &mut disk)? {
        Ok(_) => None,
        Err(why) => Some(why),
    }
}

#[rattlefmt::skip]
static FOUND: [(&'static [Word], Told); 5] = [
    // A new volume.
    (&[], (2975, 0, 3008, Pick::Number(4), 268_435_456)),
    // Blocks 33, 64 and 3,007 are in use too.
    (&[(20, 3076, 0xc000_0000), (20, 3080, 0x8000_0000), (20, 3444, 1)], (2972, 0, 3008, Pick::Number(4), 268_435_456)),
    // The bit of the place behind the last block isn't a block's.
    (&[(20, 3448, 0x7fff_ffff)], (2975, 0, 3008, Pick::Number(4), 268_435_456)),
    // Inode 4 is in use, and 5 isn't.
    (&[(28, 2560, 0xfb00_0000)], (2975, 0, 3008, Pick::Number(5), 268_435_456)),
    // All 32 are. The bit of inode 32 doesn't count, as its extent isn't there.
    (&[(28, 2560, 0xffff_ffff), (28, 2564, 0x8000_0000)], (2975, 0, 3008, Pick::NeedsExtent { place: 1 }, 268_435_456)),
];

#[test]
fn maps_are_those_of_the_pages(rt: HostRuntime) {
    let alloc = rt.alloc();
    for (words, expected) in FOUND.iter() {
        assert!(rt; told(alloc, words) == Some(*expected), "{words:?}");
    }
    let one_file = (2973, 0, 3008, Pick::Number(5), 268_435_456);
    assert!(rt; told(alloc, &ONE_FILE) == Some(one_file));
}

#[rattlefmt::skip]
static REFUSED: [(&'static [Word], Rule, u32, u64); 7] = [
    // The files of the maps are a page too short.
    (&[(11, 1288, 4)], Rule::Bmap, 11, 4),
    (&[(13, 264, 1)], Rule::Imap, 13, 1),
    // The block map is of another number of blocks, there is no page of inodes, an inode extent has three blocks, and the root is a regular file.
    (&[(16, 0, 3007)], Rule::Mapsize, 16, 3007),
    (&[(27, 4, 0)], Rule::Nextiag, 27, 0),
    (&[(28, 3072, 3)], Rule::Extents, 28, 29),
    (&[(29, 1076, 0x81ed)], Rule::Root, 29, 0x81ed),
    // Two rules are broken: the first is told.
    (&[(16, 0, 3007), (13, 264, 1)], Rule::Imap, 13, 1),
];

#[test]
fn first_broken_rule_is_told(rt: HostRuntime) {
    let alloc = rt.alloc();
    for (words, rule, page, value) in REFUSED.iter() {
        let bad = BadMount {
            rule: *rule,
            page: *page,
            value: *value,
        };
        assert!(rt;
            refusal(alloc, words) == Some(MapsError::BadImage(bad)),
            "{words:?}"
        );
    }
}

/// What is answered where the read of this number fails; the superblock's is the first one.
fn answer_at(alloc: Global, number: u64) -> Option<Result<(), MapsError>> {
    let mut disk = faulty(alloc, Part::Whole, Kind::Read, number, number)?;
    match maps_of(alloc, &mut disk)? {
        Ok(_) => Some(Ok(())),
        Err(why) => Some(Err(why)),
    }
}

/// Each page of both maps is read, and the page of the root: a read that fails ends the look, with the disk's count.
#[test]
fn failed_reads_are_told(rt: HostRuntime) {
    let alloc = rt.alloc();
    let fault = Fault {
        part: Part::Whole,
        count: 1,
    };
    for number in 2..10 {
        assert!(rt;
            answer_at(alloc, number) == Some(Err(MapsError::Read(fault))),
            "{number}"
        );
    }
    assert!(rt; answer_at(alloc, 10) == Some(Ok(())));
}
