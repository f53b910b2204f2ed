//! The words of a small volume that aren't zero, worked out from the layout: 64 blocks, and behind them a log of 256 pages. Blocks 16 to 20 are the block
//! map's file, 21 to 26 the second inode table and map, 27 and 28 the inode map's file, 29 to 32 the inodes 0 to 31, and 40 to 43 data.

/// A page, a place in it, and a number of 4 bytes there.
pub type Word = (usize, usize, u32);

/// The superblock: version 2, pages of 4,096 bytes, groups of 8,192 blocks, flags of an inline log and of Linux.
pub static SUPER: [Word; 15] = [
    (8, 0, 0x3153_464a),
    (8, 4, 2),
    (8, 8, 512),
    (8, 16, 4096),
    (8, 20, 0x0003_000c),
    (8, 24, 512),
    (8, 28, 9),
    (8, 32, 8192),
    (8, 36, 0x1000_0900),
    (8, 48, 4),
    (8, 52, 21),
    (8, 56, 2),
    (8, 60, 25),
    (8, 72, 256),
    (8, 76, 64),
];

/// Inodes 2, 4 and 16 of the aggregate: the roots of the block map's file (5 blocks from 16 on), of the bad blocks' (none) and of the inode map's (2 blocks from
/// 27 on). Then the number of blocks that the block map has, the number of inode allocation groups, and the place of the first inode extent.
pub static MAPS: [Word; 14] = [
    (11, 1264, 0x0003_0083),
    (11, 1268, 18),
    (11, 1288, 5),
    (11, 1292, 16),
    (11, 2288, 0x0002_0083),
    (11, 2292, 18),
    (13, 240, 0x0003_0083),
    (13, 244, 18),
    (13, 264, 2),
    (13, 268, 27),
    (16, 0, 64),
    (27, 4, 1),
    (28, 3072, 4),
    (28, 3076, 29),
];

/// Inodes 0, 1 and 3: regular files with one link and no block.
pub static RESERVED: [Word; 14] = [
    (29, 40, 1),
    (29, 52, 0x8000),
    (29, 240, 0x0002_0083),
    (29, 244, 18),
    (29, 520, 1),
    (29, 552, 1),
    (29, 564, 0x8000),
    (29, 752, 0x0002_0083),
    (29, 756, 18),
    (29, 1544, 3),
    (29, 1576, 1),
    (29, 1588, 0x8000),
    (29, 1776, 0x0002_0083),
    (29, 1780, 18),
];

/// Inode 2, the root: mode 0755, 2 links, and the names `a` to `d` of the inodes 4 to 7 in slots 1 to 4 of its tree's root. Slots 5 to 8 are free.
pub static ROOT: [Word; 19] = [
    (29, 1032, 2),
    (29, 1048, 1),
    (29, 1064, 2),
    (29, 1076, 0x41ed),
    (29, 1096, 21),
    (29, 1264, 0x0504_0483),
    (29, 1268, 2),
    (29, 1272, 0x0403_0201),
    (29, 1280, 4),
    (29, 1284, 0x0061_01ff),
    (29, 1312, 5),
    (29, 1316, 0x0062_01ff),
    (29, 1344, 6),
    (29, 1348, 0x0063_01ff),
    (29, 1376, 7),
    (29, 1380, 0x0064_01ff),
    (29, 1408, 0x0106),
    (29, 1440, 0x0107),
    (29, 1472, 0x0108),
];

/// The last free slot of the root.
pub static ROOT_END: [Word; 1] = [(29, 1504, 0x01ff)];

/// Inode 4, a file of 12,294 bytes: its first block is 40, its second one a hole, its third one 41, which isn't recorded, and its fourth one 42.
pub static FILE: [Word; 27] = [
    (29, 2056, 4),
    (29, 2072, 12_294),
    (29, 2088, 1),
    (29, 2092, 7),
    (29, 2096, 8),
    (29, 2100, 0x0001_8da4),
    (29, 2104, 11),
    (29, 2108, 12),
    (29, 2112, 13),
    (29, 2116, 14),
    (29, 2120, 15),
    (29, 2124, 16),
    (29, 2128, 17),
    (29, 2132, 18),
    (29, 2288, 0x0005_0083),
    (29, 2292, 18),
    (29, 2312, 1),
    (29, 2316, 40),
    (29, 2320, 8),
    (29, 2324, 2),
    (29, 2328, 1),
    (29, 2332, 41),
    (29, 2340, 3),
    (29, 2344, 1),
    (29, 2348, 42),
    (40, 4092, 0x5a59_5857),
    (42, 4, 0x3837_3635),
];

/// More bytes of the file's blocks: the first ones, and some of the extent that isn't recorded.
pub static BYTES: [Word; 3] = [
    (40, 0, 0x4443_4241),
    (41, 0, 0x2424_2424),
    (42, 0, 0x3433_3231),
];

/// Inode 5, a symbolic link to `xyz`, and inode 6, one of 256 bytes, which are those of block 43.
pub static LINKS: [Word; 14] = [
    (29, 2568, 5),
    (29, 2584, 3),
    (29, 2600, 1),
    (29, 2612, 0xa1ff),
    (29, 2816, 0x007a_7978),
    (29, 3080, 6),
    (29, 3096, 256),
    (29, 3112, 1),
    (29, 3124, 0xa1ff),
    (29, 3312, 0x0003_0083),
    (29, 3316, 18),
    (29, 3336, 1),
    (29, 3340, 43),
    (43, 252, 0x6463_6261),
];

/// Inode 7, a character device with two links.
pub static DEVICE: [Word; 3] = [(29, 3592, 7), (29, 3624, 2), (29, 3636, 0x21b6)];
