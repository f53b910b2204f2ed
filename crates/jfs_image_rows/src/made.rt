//! Images made of words.

use crate::words::{BYTES, DEVICE, FILE, LINKS, MAPS, RESERVED, ROOT, ROOT_END, SUPER, Word};
use jfs_bits::put_u32;
use jfs_disk::{Page, PageList};
use jfs_image::{Room, room_of, tree_of};
use jfs_plain::PlainTree;
use std::alloc::{AllocError, Global};

/// So many pages of zeros.
pub fn zeros(alloc: Global, count: u32) -> Result<Vec<Page>, AllocError> {
    let mut pages = Vec::new(alloc);
    for _ in 0..count {
        pages.push(Page::zeros())?;
    }
    Ok(pages)
}

/// Puts words into pages.
pub fn put(pages: &mut Vec<Page>, words: &[Word]) {
    for (page, at, value) in words {
        if let Some(page) = pages.get_mut(*page) {
            put_word(page, *at, *value);
        }
    }
}

fn put_word(page: &mut Page, at: usize, value: u32) {
    if at <= 4092 {
        put_u32(&mut page.0, at, value);
    }
}

/// The small volume, whose words these tables have, and these words instead of its own.
pub fn small_volume(alloc: Global, others: &[Word]) -> Result<PageList, AllocError> {
    let mut pages = zeros(alloc, 320)?;
    small_words(&mut pages);
    put(&mut pages, others);
    Ok(PageList::from(pages))
}

/// Puts the words of the small volume.
pub fn small_words(pages: &mut Vec<Page>) {
    put(pages, &SUPER);
    put(pages, &MAPS);
    put(pages, &RESERVED);
    put(pages, &ROOT);
    put(pages, &ROOT_END);
    put(pages, &FILE);
    put(pages, &BYTES);
    put(pages, &LINKS);
    put(pages, &DEVICE);
}

/// The tree of the small volume with these words instead of its own, if it has one; `None` outside is want of memory.
pub fn tree_with(alloc: Global, words: &[Word]) -> Option<Option<PlainTree>> {
    let image = small_volume(alloc, words).ok()?;
    tree_of(alloc, &image).ok()
}

/// The room of an image, where it has a tree; `None` outside is want of memory.
pub fn room_in(alloc: Global, image: &PageList) -> Option<Option<Room>> {
    room_of(alloc, image).ok()
}
