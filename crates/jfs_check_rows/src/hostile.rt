//! Trees of extents that lead to the same page again, or to one without entries: a check ends, and names the page. And one tree of many inodes: it ends with want of memory.

use crate::made::{Word, check_disk, finds, put, small_disk, write_new};
use crate::trees::put_directory;
use jfs_disk::SureDisk;
use jfs_findings::FindingKind as Kind;
use std::test::*;

#[rattlefmt::skip]
static ROWS: [&[Word]; 3] = [
    // Page 33, a leaf, is named twice: from block 0 of the file on, and from block 1 on.
    &[(29, 1776, 0x0004_0085), (29, 1800, 1), (29, 1804, 33), (29, 1812, 1), (29, 1816, 1), (29, 1820, 33), (33, 16, 0x0003_0082), (33, 20, 256), (33, 40, 1), (33, 44, 34)],
    // Page 33, an inner one, is its own child.
    &[(29, 1776, 0x0003_0085), (29, 1800, 1), (29, 1804, 33), (33, 16, 0x0003_0084), (33, 20, 256), (33, 40, 1), (33, 44, 33)],
    // Page 33 is a leaf without entries.
    &[(29, 1776, 0x0003_0085), (29, 1800, 1), (29, 1804, 33), (33, 16, 0x0002_0082), (33, 20, 256)],
];

#[test]
fn trees_that_do_not_end_are_named(rt: HostRuntime) {
    let alloc = rt.alloc();
    let mut disk = small_disk(alloc).expect(&rt, "there is memory");
    for words in ROWS.iter() {
        let is_so = finds(alloc, &mut disk, words, &[(Kind::Xtree, 33, 0)]);
        assert!(rt; is_so, "{words:?}");
    }
}

/// The inodes 4 to 31 are directories that share a tree of twelve pages, and their extent stands in so many places of the inode map.
fn put_one_tree(disk: &mut SureDisk, places: usize) {
    for n in 4..32u32 {
        put_directory(disk, 29 + n / 8, n as usize, n, 40);
    }
    for k in 0..places.min(128) {
        put(disk, &[(28, 3072 + 8 * k, 4), (28, 3076 + 8 * k, 29)]);
    }
}

/// On 3,008 blocks 24,064 pages may be asked for. The trees of 224 inodes have 2,688 pages, and those of 3,584 inodes 43,008, each of which is asked for twice.
#[test]
fn one_tree_of_too_many_inodes_ends_a_check(rt: HostRuntime) {
    let alloc = rt.alloc();
    let mut disk = small_disk(alloc).expect(&rt, "there is memory");
    assert!(rt; write_new(&mut disk));
    put_one_tree(&mut disk, 8);
    assert!(rt; check_disk(alloc, &mut disk).is_some());
    put_one_tree(&mut disk, 128);
    assert!(rt; check_disk(alloc, &mut disk).is_none());
}
