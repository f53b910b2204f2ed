//! Calls that want an inode, blocks or a deeper directory than there are.

use crate::claims::Owners;
use crate::given::{ALL_IN_USE, Asked, Counted, Given, LARGE, NEEDS_LOG};
use crate::small::{Row, first_wrong};
use jfs_plain::Refusal;
use std::test::*;

/// Each fourth block behind the first 44 has an owner, so 117 have none, and no four of them in a row are aligned.
const FOURTHS: Given<'static> = Given {
    owners: Owners::Fourths,
    ..LARGE
};

/// All inodes are in use, and an extent of four blocks has no room.
const NO_RUN: Given<'static> = Given {
    owners: Owners::Fourths,
    ..ALL_IN_USE
};

/// All inodes of all extents are in use that the one inode page of the map has places for.
const NO_PLACE: Given<'static> = Given {
    extents: 128,
    ..ALL_IN_USE
};

const NO_INODES: Counted = Err(Refusal::NoInodes);

// Only what makes an object asks for an inode.
#[rattlefmt::skip]
static INODES: [Row; 8] = [
    (NO_RUN, Asked::Create, b"/n", NO_INODES),
    (NO_RUN, Asked::Mkdir, b"/n", NO_INODES),
    (NO_RUN, Asked::Symlink, b"/n", NO_INODES),
    (NO_RUN, Asked::Create, b"/a", Err(Refusal::Exists)),
    (NO_RUN, Asked::Link, b"/a", Ok((3, 0))),
    (FOURTHS, Asked::Create, b"/n", Ok((3, 0))),
    (NO_PLACE, Asked::Create, b"/n", NO_INODES),
    (NO_PLACE, Asked::Mkdir, b"/n", NO_INODES),
];

#[test]
fn no_inode_is_left(rt: HostRuntime) {
    assert!(rt; first_wrong(rt.alloc(), &INODES) == None);
}

/// Of 156 blocks without an owner 149 are busy: seven are free.
const SEVEN: Given<'static> = Given {
    owners: Owners::Busy(149),
    ..LARGE
};

const EIGHT: Given<'static> = Given {
    owners: Owners::Busy(148),
    ..LARGE
};

const SIXTEEN: Given<'static> = Given {
    owners: Owners::Busy(140),
    ..LARGE
};

const FIFTEEN: Given<'static> = Given {
    owners: Owners::Busy(141),
    ..LARGE
};

/// Eleven blocks are free, of which four in a row are aligned.
const ELEVEN_IN_USE: Given<'static> = Given {
    owners: Owners::Busy(145),
    ..ALL_IN_USE
};

const TWELVE_IN_USE: Given<'static> = Given {
    owners: Owners::Busy(144),
    ..ALL_IN_USE
};

// A name wants eight blocks; an inode extent four in a row before them; a block of a file itself, and fifteen for its tree.
#[rattlefmt::skip]
static BLOCKS: [Row; 17] = [
    (SEVEN, Asked::Create, b"/n", NEEDS_LOG),
    (SEVEN, Asked::Mkdir, b"/n", NEEDS_LOG),
    (SEVEN, Asked::Symlink, b"/n", NEEDS_LOG),
    (SEVEN, Asked::Link, b"/a", NEEDS_LOG),
    (SEVEN, Asked::Rename, b"/a", NEEDS_LOG),
    (EIGHT, Asked::Create, b"/n", Ok((3, 0))),
    (EIGHT, Asked::Link, b"/a", Ok((3, 0))),
    (EIGHT, Asked::Rename, b"/a", Ok((4, 0))),
    (ELEVEN_IN_USE, Asked::Create, b"/n", NEEDS_LOG),
    (TWELVE_IN_USE, Asked::Create, b"/n", Ok((4, 0))),
    (FIFTEEN, Asked::Fill, b"/a", NEEDS_LOG),
    (SIXTEEN, Asked::Fill, b"/a", Ok((2, 1))),
    // what takes no block is done
    (SEVEN, Asked::Write, b"/a", Ok((1, 1))),
    (SEVEN, Asked::Unlink, b"/a", Ok((3, 0))),
    (SEVEN, Asked::Chmod, b"/a", Ok((1, 0))),
    (SEVEN, Asked::Truncate, b"/a", Ok((1, 1))),
    (SEVEN, Asked::Sync, b"/", Ok((0, 0))),
];

#[test]
fn busy_blocks_wait_for_the_log(rt: HostRuntime) {
    assert!(rt; first_wrong(rt.alloc(), &BLOCKS) == None);
}
