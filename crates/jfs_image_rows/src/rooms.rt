//! The rooms of the small volume and of its like.

use crate::made::{put, room_in, small_volume, small_words, zeros};
use crate::words::Word;
use jfs_disk::{Page, PageList};
use jfs_image::Room;
use std::alloc::{AllocError, Global};
use std::test::*;

/// Inode `n` of the first extent is a device with one link.
fn put_device(pages: &mut Vec<Page>, n: u8) {
    let page = 29 + usize::from(n / 8);
    let at = 512 * usize::from(n % 8);
    let words = [
        (page, at + 8, u32::from(n)),
        (page, at + 40, 1),
        (page, at + 52, 0x21b6),
    ];
    put(pages, &words);
}

/// The small volume with all its inodes in use, and these words instead of its own.
fn full_volume(alloc: Global, others: &[Word]) -> Result<PageList, AllocError> {
    let mut pages = zeros(alloc, 320)?;
    small_words(&mut pages);
    for n in 8..32 {
        put_device(&mut pages, n);
    }
    put(&mut pages, others);
    Ok(PageList::from(pages))
}

fn room(free: u32, inode: Option<u32>) -> Option<Option<Room>> {
    Some(Some(Room { free, inode }))
}

/// The room of the small volume with these words instead of its own.
fn small_room(alloc: Global, words: &[Word]) -> Option<Option<Room>> {
    let image = small_volume(alloc, words).ok()?;
    room_in(alloc, &image)
}

/// The same where all its inodes are in use.
fn full_room(alloc: Global, words: &[Word]) -> Option<Option<Room>> {
    let image = full_volume(alloc, words).ok()?;
    room_in(alloc, &image)
}

// Blocks 0 to 32 and 40 to 43 have owners.
#[test]
fn free_inode_of_an_extent(rt: HostRuntime) {
    assert!(rt; small_room(rt.alloc(), &[]) == room(27, Some(8)));
}

// Blocks 36 to 39 are a run for the second extent.
#[test]
fn inode_of_a_new_extent(rt: HostRuntime) {
    assert!(rt; full_room(rt.alloc(), &[]) == room(27, Some(32)));
}

/// The file's extent that isn't recorded has blocks 33 to 39, its last one blocks 42 to 63: block 41 alone is free.
static FULL: [Word; 4] = [(29, 2328, 7), (29, 2332, 33), (29, 2340, 9), (29, 2344, 22)];

#[test]
fn no_inode(rt: HostRuntime) {
    assert!(rt; full_room(rt.alloc(), &FULL) == room(1, None));
}

/// Words that break a rule, each alone.
static BROKEN: [Word; 4] = [
    (8, 0, 0x3253_464a),
    (28, 3072, 3),
    (29, 2056, 5),
    (29, 2348, 64),
];

#[test]
fn no_tree(rt: HostRuntime) {
    for word in BROKEN.iter() {
        assert!(rt; small_room(rt.alloc(), &[*word]) == Some(None));
    }
}
