//! Volumes of which nothing is found, with their free blocks and the inodes in use.

use crate::made::{Word, counts_of, small_disk};
use std::test::*;

/// The words, and the inodes in use. 2,975 blocks are free.
type Row = (&'static [Word], u32);

#[rattlefmt::skip]
static ROWS: [Row; 4] = [
    // A new volume.
    (&[], 4),
    // Pages of levels that aren't in use, and how many groups the block map has, aren't compared.
    (&[(16, 20, 9), (17, 100, 1)], 4),
    // Inode 4 is an empty file, which the root names `a`; the inode map has it.
    (&[(27, 12, 27), (28, 64, 27), (28, 2048, 0xf800_0000), (28, 2560, 0xf800_0000), (29, 1264, 0x0207_0183), (29, 1272, 1), (29, 1280, 4), (29, 1284, 0x0061_01ff),
        (29, 2056, 4), (29, 2088, 1), (29, 2100, 0x81a4), (29, 2288, 0x0002_0083), (29, 2292, 18)], 5),
    // Inode 4 is an empty directory, which the root names `a`.
    (&[(27, 12, 27), (28, 64, 27), (28, 2048, 0xf800_0000), (28, 2560, 0xf800_0000), (29, 1064, 3), (29, 1264, 0x0207_0183), (29, 1272, 1), (29, 1280, 4), (29, 1284, 0x0061_01ff),
        (29, 2056, 4), (29, 2088, 2), (29, 2100, 0x41ed), (29, 2288, 0x0108_0083), (29, 2292, 2), (29, 2304, 258), (29, 2336, 259), (29, 2368, 260), (29, 2400, 261), (29, 2432, 262),
        (29, 2464, 263), (29, 2496, 264), (29, 2528, 511)], 5),
];

#[test]
fn nothing_is_found(rt: HostRuntime) {
    let alloc = rt.alloc();
    let mut disk = small_disk(alloc).expect(&rt, "there is memory");
    for (words, inodes) in ROWS.iter() {
        let counts = counts_of(alloc, &mut disk, words);
        assert!(rt; counts == Some((2975, *inodes)), "{words:?}");
    }
}
