//! A volume that was formatted.

use crate::made::room_in;
use jfs_bits::Moment;
use jfs_disk::{Disk, Page, PageList, SureDisk};
use jfs_format::format;
use jfs_image::{Room, tree_of};
use jfs_plain::{PlainTree, Stat};
use std::alloc::{AllocError, Global};
use std::test::*;
use uuid::Uuid;

/// The pages of a disk.
fn pages_of<D: Disk>(alloc: Global, disk: &mut D) -> Result<PageList, AllocError> {
    let mut pages = PageList::new(alloc);
    for n in 0..u32::MAX {
        if n >= disk.pages() {
            return Ok(pages);
        }
        let mut page = Page::zeros();
        if disk.read(n, &mut page).is_err() {
            return Ok(pages);
        }
        pages.push(page)?;
    }
    Ok(pages)
}

fn stat_of(tree: &PlainTree, n: u32) -> Option<Stat> {
    match tree.node(n) {
        Some(node) => Some(node.stat(n)),
        None => None,
    }
}

/// Whether an object has no names.
fn is_empty(tree: &PlainTree, n: u32) -> bool {
    match tree.node(n) {
        Some(node) => node.names.is_empty(),
        None => false,
    }
}

const MADE: Moment = Moment { sec: 1000, nano: 7 };

/// The pages of a new volume.
fn new_pages(alloc: Global) -> Option<PageList> {
    let mut disk = SureDisk::new(alloc, 4096).ok()?;
    format(&mut disk, Uuid::from_bytes([7; 16]), b"data", MADE).ok()?;
    pages_of(alloc, &mut disk).ok()
}

/// Whether the tree of an image has the objects of a new one.
fn has_new_tree(alloc: Global, image: &PageList) -> Option<bool> {
    let tree = tree_of(alloc, image).ok()??;
    let new = PlainTree::new(alloc, 268_435_456, MADE).ok()?;
    for n in 0..9 {
        if stat_of(&tree, n) != stat_of(&new, n) {
            return Some(false);
        }
    }
    Some(is_empty(&tree, 2))
}

// Blocks 0 to 32 of 3,008 have owners.
const ROOM: Room = Room {
    free: 2975,
    inode: Some(4),
};

#[test]
fn has_the_new_tree(rt: HostRuntime) {
    let image = new_pages(rt.alloc()).expect(&rt, "memory");
    assert!(rt; has_new_tree(rt.alloc(), &image) == Some(true));
    assert!(rt; room_in(rt.alloc(), &image) == Some(Some(ROOM)));
}
