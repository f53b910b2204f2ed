//! One change, and what is found by it: each kind of finding. Worked out by hand from the layout.

use crate::made::{Found, Word, finds, small_disk};
use jfs_findings::FindingKind as Kind;
use std::test::*;

type Row = (&'static [Word], &'static [Found]);

#[rattlefmt::skip]
static ROWS: [Row; 32] = [
    // A mount's rules: the files of the maps are a page too short, the block map is of another number of blocks, there is no IAG, an inode extent has three blocks, and the root
    // is a regular file. Nothing else is looked at.
    (&[(11, 1288, 4)], &[(Kind::Aggregate, 11, 4)]),
    (&[(13, 264, 1)], &[(Kind::Aggregate, 13, 1)]),
    (&[(16, 0, 3007)], &[(Kind::Aggregate, 16, 3007)]),
    (&[(27, 4, 0)], &[(Kind::Aggregate, 27, 0)]),
    (&[(28, 3072, 3)], &[(Kind::Aggregate, 28, 29)]),
    (&[(29, 1076, 0x81ed)], &[(Kind::Aggregate, 29, 0x81ed)]),
    // The inode map: 31 inodes in place of 32; 27 free ones in place of 28; inode 3 isn't in use by the persistent map.
    (&[(27, 8, 31)], &[(Kind::Iag, 27, 0)]),
    (&[(28, 64, 27)], &[(Kind::Iag, 28, 0)]),
    (&[(28, 2560, 0xe000_0000)], &[(Kind::Iag, 28, 0)]),
    // Inode 3: another number, 65,536 links, no known type.
    (&[(29, 1544, 9)], &[(Kind::Inode, 29, 3)]),
    (&[(29, 1576, 65_536)], &[(Kind::Inode, 29, 3)]),
    (&[(29, 1588, 0x01b6)], &[(Kind::Inode, 29, 3)]),
    // The flag of a page in place of a root's: of inode 3's extents, and of the bad blocks' file, which is inode 4 of the aggregate.
    (&[(29, 1776, 0x0002_0082)], &[(Kind::Xtree, 29, 0)]),
    (&[(11, 2288, 0x0002_0082)], &[(Kind::Xtree, 11, 0)]),
    // The root's tree of names has a page's flag.
    (&[(29, 1264, 0x0108_0082)], &[(Kind::Dtree, 29, 0)]),
    // Inode 3 is a file of one block, 29, which is the first one of the inodes.
    (&[(29, 1560, 4096), (29, 1568, 1), (29, 1776, 0x0003_0083), (29, 1800, 1), (29, 1804, 29)], &[(Kind::Shared, 29, 29)]),
    // Inode 3 has attributes in block 3,008, the first one behind the volume's.
    (&[(29, 1568, 1), (29, 1640, 0x20), (29, 1648, 1), (29, 1652, 3008)], &[(Kind::Outside, 29, 3008)]),
    // It has 16,777,215 blocks of attributes behind the volume, from block 4,000 on: the first one is told. And it has a list of access in the blocks 3,010 and 3,011 and attributes in
    // 3,009 to 3,012: the first one of each run is told.
    (&[(29, 1568, 0xff_ffff), (29, 1640, 0x20), (29, 1648, 0xff_ffff), (29, 1652, 4000)], &[(Kind::Outside, 29, 4000)]),
    (&[(29, 1568, 6), (29, 1624, 0x20), (29, 1632, 2), (29, 1636, 3010), (29, 1640, 0x20), (29, 1648, 4), (29, 1652, 3009)],
        &[(Kind::Outside, 29, 3009), (Kind::Outside, 29, 3010)]),
    // The root has the name `a`, in slot 1, of inode 9, which isn't in use; and of inode 3, which is reserved.
    (&[(29, 1264, 0x0207_0183), (29, 1272, 1), (29, 1280, 9), (29, 1284, 0x0061_01ff)], &[(Kind::Name, 29, 9)]),
    (&[(29, 1264, 0x0207_0183), (29, 1272, 1), (29, 1280, 3), (29, 1284, 0x0061_01ff)], &[(Kind::Name, 29, 3)]),
    // The root has three links, and none below it: a directory has two, and one for each directory that it names.
    (&[(29, 1064, 3)], &[(Kind::Links, 29, 2)]),
    // Inode 3 is the root's parent.
    (&[(29, 1268, 3)], &[(Kind::Parent, 29, 2)]),
    // Inode 3 tells five blocks, and has none.
    (&[(29, 1568, 5)], &[(Kind::Nblocks, 29, 3)]),
    // Inode 3 has block 29, but no byte.
    (&[(29, 1568, 1), (29, 1776, 0x0003_0083), (29, 1800, 1), (29, 1804, 29)], &[(Kind::Shared, 29, 29), (Kind::Past, 29, 3)]),
    // Inode 3 is a file of two blocks, 35 and 36, on two leaves of one entry each, 33 and 34: the first one has few entries and isn't the last of its level. The four blocks aren't
    // marked in the map, which counts them as free.
    (&[(29, 1560, 8192), (29, 1568, 4), (29, 1776, 0x0004_0085), (29, 1800, 1), (29, 1804, 33), (29, 1812, 1), (29, 1816, 1), (29, 1820, 34),
        (33, 16, 0x0003_0082), (33, 20, 256), (33, 40, 1), (33, 44, 35), (34, 16, 0x0003_0082), (34, 20, 256), (34, 36, 1), (34, 40, 1), (34, 44, 36)],
        &[(Kind::Thin, 33, 3), (Kind::Map, 20, 33), (Kind::Map, 20, 34), (Kind::Map, 20, 35), (Kind::Map, 20, 36), (Kind::Bmap, 16, 0), (Kind::Bmap, 20, 0)]),
    // Block 33 is in use by the persistent map alone, and has no owner.
    (&[(20, 3076, 0xc000_0000)], &[(Kind::Map, 20, 33), (Kind::Bmap, 20, 0)]),
    // The persistent map has block 32 as free, which has the inodes 24 to 31.
    (&[(20, 3076, 0)], &[(Kind::Map, 20, 32), (Kind::Bmap, 20, 0)]),
    // The persistent map has in use blocks 63 and 64, on both sides of a border of words, and the last one, 3,007; and it has as free the place behind the last.
    (&[(20, 3076, 0x8000_0001), (20, 3080, 0x8000_0000), (20, 3444, 1)], &[(Kind::Map, 20, 63), (Kind::Map, 20, 64), (Kind::Map, 20, 3007), (Kind::Bmap, 20, 0)]),
    (&[(20, 3448, 0x7fff_ffff)], &[(Kind::Bmap, 20, 0)]),
    // The control page counts 2,974 free blocks in place of 2,975, and so does the dmap.
    (&[(16, 8, 2974)], &[(Kind::Bmap, 16, 0)]),
    (&[(20, 4, 2974)], &[(Kind::Bmap, 20, 0)]),
];

#[test]
fn each_change_is_found(rt: HostRuntime) {
    let alloc = rt.alloc();
    let mut disk = small_disk(alloc).expect(&rt, "there is memory");
    for (words, expected) in ROWS.iter() {
        let is_so = finds(alloc, &mut disk, words, expected);
        assert!(rt; is_so, "{words:?}");
    }
}
