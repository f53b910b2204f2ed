//! A dmap page and a control page, byte by byte.

use crate::runs::{are_taken, take_and_give};
use crate::slow_pages::same_pages;
use jfs_bits::set_run;
use jfs_disk::Page;
use jfs_dmap::{dmap_canonical, dmap_find};

// The leaves of 3,008 blocks of which 0 to 32 are taken, by place and value; every other leaf is -1.
static LEAVES: [(usize, u8); 11] = [
    (0, 255),
    (1, 4),
    (2, 6),
    (4, 7),
    (8, 8),
    (16, 9),
    (32, 10),
    (64, 9),
    (80, 8),
    (88, 7),
    (92, 6),
];

// The lowest free runs of that page, by l2.
static LOWEST: [(u32, Option<u32>); 13] = [
    (0, Some(33)),
    (1, Some(34)),
    (2, Some(36)),
    (3, Some(40)),
    (4, Some(48)),
    (5, Some(64)),
    (6, Some(64)),
    (7, Some(128)),
    (8, Some(256)),
    (9, Some(512)),
    (10, Some(1024)),
    (11, None),
    (40, None),
];

// Runs taken of it one after the other: blocks 33, 40 to 2,175 in the end.
static TAKEN: [(u32, Option<u32>); 10] = [
    (0, Some(33)),
    (3, Some(40)),
    (6, Some(64)),
    (10, Some(1024)),
    (9, Some(512)),
    (10, None),
    (4, Some(48)),
    (8, Some(256)),
    (7, Some(128)),
    (7, Some(2048)),
];

fn leaf_of(place: usize) -> u8 {
    for (leaf, value) in LEAVES.iter() {
        if *leaf == place {
            return *value;
        }
    }
    255
}

/// The first leaf that has another value.
fn first_wrong(page: &Page) -> Option<usize> {
    for leaf in 0..256 {
        if page.0[118 + leaf] != leaf_of(leaf) {
            return Some(leaf);
        }
    }
    None
}

/// Whether the root's value is 10, 2,975 blocks are free, block 33 is, and block 3,008 isn't there.
fn has_counts(page: &Page) -> bool {
    page.0[33] == 10
        && page.0[4] == 0x9f
        && page.0[5] == 0x0b
        && page.0[2055] == 0x80
        && page.0[2424] == 0xff
}

#[test]
fn dmap_rows(rt: HostRuntime) {
    let mut set = [0u8; 1024];
    set_run(&mut set, 0, 33);
    let mut page = Page::zeros();
    dmap_canonical(&set, 0, 3008, &mut page);
    assert!(rt; first_wrong(&page) == None && has_counts(&page));
    for (l2, first) in LOWEST.iter() {
        assert!(rt; dmap_find(&page, *l2) == *first, "lowest {l2}");
    }
    assert!(rt; are_taken(&mut page, &TAKEN));
    assert!(rt; take_and_give(&mut page, 1, 3008) == Some(34));
    set_run(&mut set, 33, 1);
    set_run(&mut set, 40, 2136);
    let mut wanted = Page::zeros();
    dmap_canonical(&set, 0, 3008, &mut wanted);
    assert!(rt; same_pages(&page, &wanted));
}
