//! The words of a small volume that aren't zero, all in its first 64 blocks, worked out from the layout: inodes 0 to 31 stand on pages 29 to 32.

use jfs_bits::put_u32;
use jfs_disk::{Disk, Fail, Kind, MemDisk, Page, Part, SureDisk};
use std::alloc::{AllocError, Global};

/// A page, a place in it, and a number of 4 bytes there.
pub type Word = (u32, usize, u32);

/// Inode 2, the root: mode 0755, 2 links, and the names `a` to `d` of the inodes 4 to 7 in slots 1 to 4 of its tree's root. Slots 5 to 8 are free.
static ROOT: [Word; 20] = [
    (29, 1032, 2),
    (29, 1048, 1),
    (29, 1064, 2),
    (29, 1076, 0x41ed),
    (29, 1096, 21),
    (29, 1264, 0x0504_0483),
    (29, 1268, 2),
    (29, 1272, 0x0403_0201),
    (29, 1280, 4),
    (29, 1284, 0x0061_01ff),
    (29, 1312, 5),
    (29, 1316, 0x0062_01ff),
    (29, 1344, 6),
    (29, 1348, 0x0063_01ff),
    (29, 1376, 7),
    (29, 1380, 0x0064_01ff),
    (29, 1408, 0x0106),
    (29, 1440, 0x0107),
    (29, 1472, 0x0108),
    (29, 1504, 0x01ff),
];

/// Inode 4, a regular file of the four bytes of block 42; 5, a symbolic link to `xyz`; 6, one of 4,098 bytes, which are those of block 43 and two of a hole; 7, a device.
static OTHERS: [Word; 26] = [
    (29, 2056, 4),
    (29, 2072, 4),
    (29, 2088, 1),
    (29, 2100, 0x81a4),
    (29, 2288, 0x0003_0083),
    (29, 2292, 18),
    (29, 2312, 1),
    (29, 2316, 42),
    (42, 0, 0x4443_4241),
    (29, 2568, 5),
    (29, 2584, 3),
    (29, 2600, 1),
    (29, 2612, 0xa1ff),
    (29, 2816, 0x007a_7978),
    (29, 3080, 6),
    (29, 3096, 4098),
    (29, 3112, 1),
    (29, 3124, 0xa1ff),
    (29, 3312, 0x0003_0083),
    (29, 3316, 18),
    (29, 3336, 1),
    (29, 3340, 43),
    (43, 4092, 0x6463_6261),
    (29, 3592, 7),
    (29, 3624, 2),
    (29, 3636, 0x21b6),
];

/// A root that isn't a leaf: its one child is page 44, which has zeros. Slots 2 to 8 are free.
pub const INNER_ROOT: [Word; 11] = [
    (29, 1264, 0x0207_0185),
    (29, 1272, 1),
    (29, 1280, 1),
    (29, 1284, 44),
    (29, 1288, 0x00ff),
    (29, 1312, 0x0103),
    (29, 1344, 0x0104),
    (29, 1376, 0x0105),
    (29, 1380, 0),
    (29, 1348, 0),
    (29, 1316, 0),
];

/// Inode 7 as an empty directory of two links, and a root directory of three. All eight slots are free.
pub const EMPTY_DIRECTORY: [Word; 12] = [
    (29, 1064, 3),
    (29, 3636, 0x41ed),
    (29, 3824, 0x0108_0083),
    (29, 3828, 2),
    (29, 3840, 0x0102),
    (29, 3872, 0x0103),
    (29, 3904, 0x0104),
    (29, 3936, 0x0105),
    (29, 3968, 0x0106),
    (29, 4000, 0x0107),
    (29, 4032, 0x0108),
    (29, 4064, 0x01ff),
];

/// The small volume with so many blocks, with these words instead of its own.
pub fn small_disk(alloc: Global, blocks: u32, others: &[Word]) -> Result<SureDisk, AllocError> {
    let mut disk = SureDisk::new(alloc, blocks)?;
    put_volume(&mut disk, others);
    Ok(disk)
}

/// The same on a disk of which one read fails, by its number from 1.
pub fn failing_disk(alloc: Global, number: u64, blocks: u32, others: &[Word]) -> Option<MemDisk> {
    let mut disk = MemDisk::new(alloc, blocks);
    put_volume(&mut disk, others);
    let mut fails = Vec::new(alloc);
    fails
        .push(Fail {
            part: Part::Whole,
            kind: Kind::Read,
            first: number,
            last: number,
        })
        .ok()?;
    Some(disk.with_fails(fails))
}

/// Writes the small volume, with these words instead of its own, to a disk of zeros.
fn put_volume<D: Disk>(disk: &mut D, others: &[Word]) {
    for page in 0..64 {
        let mut bytes = Page::zeros();
        put(&mut bytes, page, &ROOT);
        put(&mut bytes, page, &OTHERS);
        put(&mut bytes, page, others);
        if page < disk.pages() {
            let _ = disk.write(page, &bytes);
        }
    }
}

/// Puts the words of a page.
fn put(bytes: &mut Page, page: u32, words: &[Word]) {
    for (own, at, value) in words {
        if *own == page && *at <= 4092 {
            put_u32(&mut bytes.0, *at, *value);
        }
    }
}
