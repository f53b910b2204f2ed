//! Each page of a new volume, by its words.

use crate::words::{
    AGGREGATE_CONTROL, AGGREGATE_IAG, AGGREGATE_INODES, DMAP_TREE, END, FILESET_CONTROL,
    FILESET_IAG, FILESET_INODES, FILESET_MAP_INODE, LEVEL_TREE, LOG_SUPER, MAP_CONTROL, SUPER,
};
use jfs_bits::{Moment, put_u8, put_u32};
use jfs_disk::{Disk, MemDisk, Page};
use jfs_format::{FormatError, Layout, format};
use std::alloc::Global;
use std::test::Fail;
use uuid::Uuid;

/// 00112233-4455-6677-8899-aabbccddeeff.
pub const UUID: [u8; 16] = [
    0x00, 0x11, 0x22, 0x33, 0x44, 0x55, 0x66, 0x77, 0x88, 0x99, 0xaa, 0xbb, 0xcc, 0xdd, 0xee, 0xff,
];

pub const MOMENT: Moment = Moment { sec: 1000, nano: 7 };

/// Puts words into a page.
fn put_words(page: &mut Page, words: &[(usize, u32)]) {
    for word in words {
        put_u32(&mut page.0, word.0 % 4093, word.1);
    }
}

/// A page of zeros with these words.
fn page_of(words: &[(usize, u32)]) -> Page {
    let mut page = Page::zeros();
    put_words(&mut page, words);
    page
}

/// A control page of an inode map: no group from 1 on has an inode allocation group.
fn control_of(words: &[(usize, u32)]) -> Page {
    let mut page = page_of(words);
    for g in 1..128 {
        put_u32(&mut page.0, 2048 + 16 * g, END);
        put_u32(&mut page.0, 2048 + 16 * g + 4, END);
    }
    page
}

/// A page with a tree from a byte on, whose nodes are -1 but for these.
fn tree_of(words: &[(usize, u32)], from: usize, nodes: usize, values: &[(usize, u8)]) -> Page {
    let mut page = page_of(words);
    for n in 0..nodes.min(1365) {
        put_u8(&mut page.0, from % 64 + n, 0xff);
    }
    for value in values {
        put_u8(&mut page.0, from % 64 + value.0 % 1365, value.1);
    }
    page
}

/// A control page of a level, with this value of a wholly free leaf.
fn level_of(whole: u8, values: &[(usize, u8)]) -> Page {
    let mut page = tree_of(&[(0, 1024), (4, 10), (8, 341), (12, 5)], 17, 1365, values);
    put_u8(&mut page.0, 16, whole);
    page
}

/// Dmap 0: blocks 0 to 32 are taken, and so are those from 3,008 on, which aren't there.
fn dmap() -> Page {
    let head = [(0, 3008), (4, 2975), (16, 256), (20, 8), (24, 85), (28, 4)];
    let mut page = tree_of(&head, 33, 341, &DMAP_TREE);
    put_u8(&mut page.0, 32, 5);
    for map in [2048, 3072] {
        put_u32(&mut page.0, map, END);
        put_u32(&mut page.0, map + 4, 0x8000_0000);
        for word in 94..256 {
            put_u32(&mut page.0, map + 4 * word, END);
        }
    }
    page
}

/// Page `q` of the ring: its number before and behind, and where its last record ends; the last page has one record, a SYNCPT.
fn ring_page(q: u32) -> Page {
    let end = if q == 1021 { 44 } else { 8 };
    let words = [(0, q), (4, end << 16), (4088, q), (4092, end << 16)];
    let mut page = page_of(&words);
    if q == 1021 {
        put_u32(&mut page.0, 16, 0x4000);
    }
    page
}

/// Page `n` of a new volume.
pub fn wanted(n: u32) -> Page {
    match n {
        8 | 15 => page_of(&SUPER),
        9 | 25 => control_of(&AGGREGATE_CONTROL),
        10 | 26 => page_of(&AGGREGATE_IAG),
        11 | 21 => page_of(&AGGREGATE_INODES),
        13 | 23 => page_of(&FILESET_MAP_INODE),
        16 => page_of(&MAP_CONTROL),
        17 => level_of(33, &[]),
        18 => level_of(23, &[]),
        19 => level_of(13, &LEVEL_TREE),
        20 => dmap(),
        27 => control_of(&FILESET_CONTROL),
        28 => page_of(&FILESET_IAG),
        29 => page_of(&FILESET_INODES),
        3073 => page_of(&LOG_SUPER),
        3074..=4095 => ring_page(n - 3074),
        _ => Page::zeros(),
    }
}

/// Whether page `n` of a disk is this one.
pub fn is_page(disk: &mut MemDisk, n: u32, page: &Page) -> bool {
    let mut read = Page::zeros();
    n < disk.pages() && disk.read(n, &mut read).is_ok() && read.0 == page.0
}

#[test]
fn each_page_of_a_new_volume(rt: HostRuntime) {
    let mut disk = MemDisk::new(rt.alloc(), 4096);
    assert!(rt; format(&mut disk, Uuid::from_bytes(UUID), b"data", MOMENT).is_ok());
    for n in 0..4096 {
        assert!(rt; is_page(&mut disk, n, &wanted(n)));
    }
}

// Pages without a name: the reserved ones, free blocks, the work space and the log's first page.
static OTHER_PAGES: [u32; 7] = [0, 7, 33, 3007, 3008, 3071, 3072];

#[test]
fn other_pages_stay(rt: HostRuntime) {
    let mut disk = MemDisk::new(rt.alloc(), 4096);
    let mark = Page([0x5a; 4096]);
    for n in OTHER_PAGES.iter() {
        assert!(rt; *n < disk.pages());
        assert!(rt; disk.write(*n, &mark).is_ok());
    }
    assert!(rt; format(&mut disk, Uuid::from_bytes(UUID), b"data", MOMENT).is_ok());
    for n in OTHER_PAGES.iter() {
        assert!(rt; is_page(&mut disk, *n, &mark));
    }
    assert!(rt; is_page(&mut disk, 32, &Page::zeros()));
}

#[test]
fn a_volume_is_made_anew_with_another_name(rt: HostRuntime) {
    let mut disk = MemDisk::new(rt.alloc(), 4096);
    assert!(rt; format(&mut disk, Uuid::from_bytes(UUID), b"data", MOMENT).is_ok());
    let label = b"sixteen letters!";
    assert!(rt; format(&mut disk, Uuid::from_bytes([0xab; 16]), label, MOMENT).is_ok());
    let mut page = wanted(8);
    for at in [136, 140, 144, 148, 168, 172, 176, 180] {
        put_u32(&mut page.0, at, 0xabab_abab);
    }
    page.0[152..168].copy_from_slice(label);
    assert!(rt; is_page(&mut disk, 8, &page));
    assert!(rt; is_page(&mut disk, 15, &page));
    assert!(rt; is_page(&mut disk, 29, &wanted(29)));
}

static BAD_SIZES: [u32; 3] = [0, 4095, 8_388_609];

// The number of pages that a format refuses of such a disk, if it does.
fn told_size(alloc: Global, pages: u32) -> Option<u32> {
    let mut disk = MemDisk::new(alloc, pages);
    match format(&mut disk, Uuid::from_bytes(UUID), b"data", MOMENT) {
        Err(FormatError::BadSize { pages }) => Some(pages),
        _ => None,
    }
}

#[test]
fn too_few_and_too_many_pages(rt: HostRuntime) {
    for pages in BAD_SIZES.iter() {
        assert!(rt; told_size(rt.alloc(), *pages) == Some(*pages), "{pages}");
    }
}

// The work space grows with each whole 2^20 pages, the log with each 256 pages, and the groups at 2^20 blocks.
#[test]
fn layouts_by_hand(rt: HostRuntime) {
    let small = Layout::of(4096);
    assert_eq!(rt; (small.blocks, small.agsize, small.groups), (3008, 8192, 1));
    assert_eq!(rt; small.free(), 2975);
    let most = Layout::of(8_388_608);
    assert_eq!(rt; (most.log.len, most.work.len), (32768, 576));
    assert_eq!(rt;
        (most.blocks, most.agsize, most.groups),
        (8_355_264, 65536, 128)
    );
    assert_eq!(rt; (most.dmaps, most.iags), (1020, 128));
    assert_eq!(rt; most.free(), 8_355_264 - 1179);
    let middle = Layout::of(1_052_832);
    assert_eq!(rt;
        (middle.log.len, middle.work.len, middle.blocks),
        (4112, 128, 1_048_592)
    );
    assert_eq!(rt;
        (middle.agsize, middle.groups, middle.dmaps),
        (16384, 65, 129)
    );
}
