//! Rows of changes, worked out by hand from the format.

use crate::changed::{full_iag_passes, iag_passes, passes, small_map};

// Pages of the block map's file and places where a change is told: of the control page its numbers, of level 0 its head, root and
// leaves, of a dmap its counts, tree, and both maps, up to the bit past the last block.
static TOLD: [(u32, usize); 21] = [
    (0, 0),
    (0, 8),
    (0, 52),
    (0, 56),
    (0, 1072),
    (0, 1080),
    (0, 1088),
    (3, 0),
    (3, 16),
    (3, 17),
    (3, 358),
    (3, 1381),
    (4, 0),
    (4, 4),
    (4, 8),
    (4, 33),
    (4, 118),
    (4, 373),
    (4, 2048),
    (4, 3071),
    (4, 4095),
];

// Places that aren't compared: unused bytes, the control page's nine numbers, the pages of levels 2 and 1; and no change.
static PASSED: [(u32, usize); 14] = [
    (0, 16),
    (0, 48),
    (0, 1089),
    (0, 4095),
    (0, 4096),
    (1, 0),
    (2, 17),
    (3, 1382),
    (3, 4095),
    (3, 4096),
    (4, 374),
    (4, 2047),
    (4, 4096),
    (2, 4096),
];

// Places of an IAG without extents where a change is told: its number, summaries and counts.
static IAG_TOLD: [usize; 5] = [8, 32, 48, 64, 68];

// And those that aren't compared: its group, its lists, unused bytes, maps of extents that aren't there; and no change.
static IAG_PASSED: [usize; 8] = [0, 12, 28, 72, 2047, 2048, 2560, 4096];

// Bits of an IAG whose extents are there, at the borders of the words of 32 bits: of the summaries extents 0, 31, 32 and 127, of both maps inodes 0, 31, 32 and
// 4,095.
static BORDERS: [(usize, u8); 16] = [
    (35, 0x80),
    (32, 1),
    (39, 0x80),
    (44, 1),
    (51, 0x80),
    (48, 1),
    (55, 0x80),
    (60, 1),
    (2051, 0x80),
    (2048, 1),
    (2055, 0x80),
    (2556, 1),
    (2563, 0x80),
    (2560, 1),
    (2567, 0x80),
    (3068, 1),
];

#[test]
fn block_map_rows(rt: HostRuntime) {
    let map = small_map(rt.alloc()).expect(&rt, "memory");
    for (n, at) in TOLD.iter() {
        assert!(rt; !passes(&map, *n, *at), "page {n} byte {at}");
    }
    for (n, at) in PASSED.iter() {
        assert!(rt; passes(&map, *n, *at), "page {n} byte {at}");
    }
}

#[test]
fn inode_map_rows(rt: HostRuntime) {
    for at in IAG_TOLD.iter() {
        assert!(rt; !iag_passes(*at), "byte {at}");
    }
    for at in IAG_PASSED.iter() {
        assert!(rt; iag_passes(*at), "byte {at}");
    }
}

#[test]
fn border_rows(rt: HostRuntime) {
    assert!(rt; full_iag_passes(4096, 1), "no change");
    for (at, bits) in BORDERS.iter() {
        assert!(rt; !full_iag_passes(*at, *bits), "byte {at} bits {bits}");
    }
}
