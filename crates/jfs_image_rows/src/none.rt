//! Images without a tree.

use crate::made::{tree_with, zeros};
use crate::words::Word;
use jfs_disk::PageList;
use jfs_image::tree_of;
use std::alloc::Global;
use std::test::*;

/// Words that break a rule, each alone.
static BROKEN: [Word; 14] = [
    // the superblock: another magic number, and one block more, which is the log's first page
    (8, 0, 0x3253_464a),
    (8, 8, 520),
    // a mount's rules: the files of the maps are a page too short, the block map is of another number of blocks, there is no inode allocation group, an inode extent has
    // three blocks, and the root is a regular file
    (11, 1288, 4),
    (13, 264, 1),
    (16, 0, 65),
    (27, 4, 0),
    (28, 3072, 3),
    (29, 1076, 0x81ed),
    // an inode: another number, no known type, too many links
    (29, 2056, 5),
    (29, 3636, 0x01b6),
    (29, 2088, 0x0001_0000),
    // a tree: no root, an extent past the blocks, and names that don't rise
    (29, 2288, 0x0005_0082),
    (29, 2348, 64),
    (29, 1272, 0x0403_0102),
];

/// Whether the small volume with one word instead of its own has a tree.
fn has_tree(alloc: Global, word: Word) -> Option<bool> {
    Some(tree_with(alloc, &[word])?.is_some())
}

#[test]
fn broken_rules(rt: HostRuntime) {
    for word in BROKEN.iter() {
        assert!(rt; has_tree(rt.alloc(), *word) == Some(false));
    }
}

/// Whether so many pages of zeros have a tree.
fn zeros_have_tree(alloc: Global, count: u32) -> Option<bool> {
    let image = PageList::from(zeros(alloc, count).ok()?);
    Some(tree_of(alloc, &image).ok()?.is_some())
}

#[test]
fn few_pages(rt: HostRuntime) {
    assert!(rt; zeros_have_tree(rt.alloc(), 0) == Some(false));
    assert!(rt; zeros_have_tree(rt.alloc(), 8) == Some(false));
}

// Inode 8 has another number and no type, but no link.
#[test]
fn inodes_not_in_use(rt: HostRuntime) {
    assert!(rt; has_tree(rt.alloc(), (30, 8, 77)) == Some(true));
}
