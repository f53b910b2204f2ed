//! Directories and files of several levels, put into a new volume.
//!
//! A page of a directory's tree has 128 slots of 32 bytes: the header, four of the sorted table, then entries, then free ones in a chain.

use crate::made::put;
use jfs_disk::SureDisk;

/// How many names a directory has, each on a leaf of its own.
pub const LEAVES: u32 = 11;

/// Slots from `first` up to `end` are free: each names the next.
fn put_chain(disk: &mut SureDisk, page: u32, first: usize, end: usize) {
    for slot in first..end.min(128) {
        let next = if slot + 1 < end {
            slot as u32 + 1
        } else {
            0xff
        };
        put(disk, &[(page, 32 * slot, next + 256)]);
    }
}

/// A leaf with the one name of a letter, which leads to inode 0, and its neighbours, of which 0 is none.
fn put_leaf(disk: &mut SureDisk, page: u32, prev: u32, next: u32, letter: u32) {
    #[rattlefmt::skip]
    let words = [
        (page, 0, next), (page, 8, prev), (page, 16, 0x067a_0182), (page, 20, 0x0180), (page, 24, 1), (page, 28, page), (page, 32, 5),
        (page, 160, 0), (page, 164, 0x01ff | letter << 16),
    ];
    put(disk, &words);
    put_chain(disk, page, 6, 128);
}

/// An inner page, above a leaf for each of eleven letters; the leaves stand behind it.
fn put_inner(disk: &mut SureDisk, page: u32) {
    #[rattlefmt::skip]
    let words = [
        (page, 16, 0x1070_0b84), (page, 20, 0x0180), (page, 24, 1), (page, 28, page), (page, 32, 0x0807_0605), (page, 36, 0x0c0b_0a09), (page, 40, 0x000f_0e0d),
    ];
    put(disk, &words);
    for k in 0..LEAVES {
        let key = if k == 0 {
            0xff
        } else {
            0x01ff | (97 + k) << 16
        };
        let at = 160 + 32 * k as usize;
        let child = page.saturating_add(1 + k);
        put(
            disk,
            &[(page, at, 1), (page, at + 4, child), (page, at + 8, key)],
        );
    }
    put_chain(disk, page, 16, 128);
}

/// The tree of inode `i` of page `inodes`, a directory: its root, an inner page, and eleven leaves behind that.
pub fn put_names(disk: &mut SureDisk, inodes: u32, i: usize, page: u32) {
    let root = 512 * (i % 8) + 224;
    #[rattlefmt::skip]
    let words = [
        (inodes, root + 16, 0x0207_0185), (inodes, root + 24, 1), (inodes, root + 32, 1), (inodes, root + 36, page), (inodes, root + 40, 0xff),
    ];
    put(disk, &words);
    put_inner(disk, page);
    for k in 0..LEAVES {
        let at = page.saturating_add(1 + k);
        let prev = if k == 0 { 0 } else { at - 1 };
        let next = if k + 1 == LEAVES {
            0
        } else {
            at.saturating_add(1)
        };
        put_leaf(disk, at, prev, next, 97 + k);
    }
}

/// Inode `i` of page `inodes`, whose number is `n`, is a directory below the root with such a tree.
pub fn put_directory(disk: &mut SureDisk, inodes: u32, i: usize, n: u32, page: u32) {
    let at = 512 * (i % 8);
    #[rattlefmt::skip]
    let words = [
        (inodes, at + 4, 1), (inodes, at + 8, n), (inodes, at + 40, 2), (inodes, at + 52, 0x41ed), (inodes, at + 244, 2),
    ];
    put(disk, &words);
    for slot in 2..9 {
        let next = if slot == 8 { 0x01ff } else { 257 + slot as u32 };
        put(disk, &[(inodes, at + 224 + 32 * slot, next)]);
    }
    put_names(disk, inodes, i, page);
}

/// Inode 3 is a file of two blocks, with an inner page on page `page` and two leaves behind it.
pub fn put_file(disk: &mut SureDisk, page: u32) {
    let (one, two) = (page.saturating_add(1), page.saturating_add(2));
    #[rattlefmt::skip]
    let words = [
        (29, 1776, 0x0003_0085), (29, 1800, 1), (29, 1804, page),
        (page, 16, 0x0004_0084), (page, 20, 256), (page, 40, 1), (page, 44, one), (page, 52, 1), (page, 56, 1), (page, 60, two),
        (one, 0, two), (one, 16, 0x0003_0082), (one, 20, 256), (one, 40, 1), (one, 44, 2000),
        (two, 8, one), (two, 16, 0x0003_0082), (two, 20, 256), (two, 36, 1), (two, 40, 1), (two, 44, 2001),
    ];
    put(disk, &words);
}

/// The extent tree of inode `i` of page `inodes`, with one extent from block 0 of the file on: its root, and a leaf on page `page`.
pub fn put_extent_below(
    disk: &mut SureDisk,
    inodes: u32,
    i: usize,
    page: u32,
    len: u32,
    addr: u32,
) {
    let root = 512 * (i % 8) + 224;
    #[rattlefmt::skip]
    let words = [
        (inodes, root + 16, 0x0003_0085), (inodes, root + 36, 0), (inodes, root + 40, 1), (inodes, root + 44, page),
        (page, 16, 0x0003_0082), (page, 20, 256), (page, 40, len), (page, 44, addr),
    ];
    put(disk, &words);
}
