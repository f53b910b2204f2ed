//! A new volume with words of its own changed.
//!
//! It has 3,008 blocks. Pages 16 to 20 are the block map's file, 27 and 28 the inode map's, and 29 has the inodes 0 to 7, of which 0 to 3 are in use. Blocks 0 to 32 have owners.

use crate::volume::formatted;
use jfs_bits::put_u32;
use jfs_disk::{Disk, Page, SureDisk};
use std::alloc::Global;

/// A page, a place in it, and a number of 4 bytes there.
pub type Word = (u32, usize, u32);

/// Inode 4, a regular file of mode 0644 with two blocks, 33 and 34, and the root's name `a` for it; both are in use by the maps.
#[rattlefmt::skip]
pub static ONE_FILE: [Word; 18] = [
    (29, 2056, 4), (29, 2072, 8192), (29, 2080, 2), (29, 2088, 1), (29, 2100, 0x0001_81a4), (29, 2288, 0x0003_0083), (29, 2292, 18), (29, 2304, 0), (29, 2308, 0), (29, 2312, 2), (29, 2316, 33),
    (29, 1264, 0x0207_0183), (29, 1272, 1), (29, 1280, 4), (29, 1284, 0x0061_01ff), (28, 2560, 0xf800_0000), (20, 3076, 0xe000_0000), (20, 3080, 0),
];

/// A new volume with these words instead of its own.
pub fn volume_with(alloc: Global, words: &[Word]) -> Option<SureDisk> {
    let mut disk = formatted(alloc)?;
    for (n, at, value) in words {
        put_word(&mut disk, *n, *at, *value);
    }
    Some(disk)
}

fn put_word<D: Disk>(disk: &mut D, n: u32, at: usize, value: u32) {
    if n >= disk.pages() || at > 4092 {
        return;
    }
    let mut page = Page::zeros();
    if disk.read(n, &mut page).is_err() {
        return;
    }
    put_u32(&mut page.0, at, value);
    if disk.write(n, &page).is_err() {
        return;
    }
}
