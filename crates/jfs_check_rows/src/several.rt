//! Several changes, and what is found of them, in order.

use crate::made::{Found, Word, finds, small_disk};
use jfs_findings::FindingKind as Kind;
use std::test::*;

type Row = (&'static [Word], &'static [Found]);

#[rattlefmt::skip]
static ROWS: [Row; 3] = [
    // Both maps count wrongly, inode 3 has another number and tells blocks that it hasn't, and the root has a link too many and another parent.
    (&[(16, 8, 2974), (27, 8, 31), (29, 1064, 3), (29, 1268, 3), (29, 1544, 9), (29, 1568, 5)],
        &[(Kind::Iag, 27, 0), (Kind::Inode, 29, 3), (Kind::Links, 29, 2), (Kind::Parent, 29, 2), (Kind::Nblocks, 29, 3), (Kind::Bmap, 16, 0)]),
    // Inode 3 has attributes in the volume's last block, 3,007, which isn't marked, and in the one behind it.
    (&[(29, 1568, 2), (29, 1640, 0x20), (29, 1648, 2), (29, 1652, 3007)], &[(Kind::Outside, 29, 3008), (Kind::Map, 20, 3007), (Kind::Bmap, 16, 0), (Kind::Bmap, 20, 0)]),
    // Inode 3 has the inodes' block 29 and a list of access in their block 31, tells three blocks, and the root names it `a`.
    (&[(29, 1264, 0x0207_0183), (29, 1272, 1), (29, 1280, 3), (29, 1284, 0x0061_01ff), (29, 1560, 4096), (29, 1568, 3), (29, 1624, 0x20), (29, 1632, 1), (29, 1636, 31),
        (29, 1776, 0x0003_0083), (29, 1800, 1), (29, 1804, 29)],
        &[(Kind::Shared, 29, 29), (Kind::Shared, 31, 31), (Kind::Name, 29, 3), (Kind::Nblocks, 29, 3)]),
];

#[test]
fn all_changes_are_found(rt: HostRuntime) {
    let alloc = rt.alloc();
    let mut disk = small_disk(alloc).expect(&rt, "there is memory");
    for (words, expected) in ROWS.iter() {
        let is_so = finds(alloc, &mut disk, words, expected);
        assert!(rt; is_so, "{words:?}");
    }
}
