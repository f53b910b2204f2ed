//! Replies and transactions.

use crate::given::{ALL_IN_USE, Asked, Counted, Given, LARGE, SMALL, answer};
use crate::words::{EMPTY_DIRECTORY, INNER_ROOT};
use jfs_bits::Rule;
use jfs_plain::Refusal;
use std::alloc::Global;
use std::test::*;

/// A root without a flag.
const NO_FLAG: Given<'static> = Given {
    words: &[(29, 1264, 0)],
    ..SMALL
};

/// A root that leads to a page of zeros.
const ON_ZEROS: Given<'static> = Given {
    words: &INNER_ROOT,
    ..SMALL
};

const WITH_DIRECTORY: Given<'static> = Given {
    words: &EMPTY_DIRECTORY,
    ..SMALL
};

const FULL: Refusal = Refusal::NoSpace { free: 20 };

const AT_29: Refusal = Refusal::Damaged {
    page: 29,
    rule: Rule::Flag,
};

const AT_44: Refusal = Refusal::Damaged {
    page: 44,
    rule: Rule::Flag,
};

/// The volume, the call, its path, and what it answers.
pub type Row = (Given<'static>, Asked, &'static [u8], Counted);

// A link is refused for space, since 64 blocks are always kept. A root without a flag is told at its inode's page, and one that leads to a page of zeros at that page.
#[rattlefmt::skip]
static ANSWERS: [Row; 17] = [
    (SMALL, Asked::Chmod, b"/e", Err(Refusal::NotFound)),
    (SMALL, Asked::Create, b"/n", Err(FULL)),
    (SMALL, Asked::Link, b"/a", Err(FULL)),
    (SMALL, Asked::Link, b"/", Err(Refusal::IsDir)),
    (SMALL, Asked::Rmdir, b"/a", Err(Refusal::NotDir)),
    (SMALL, Asked::Stat, b"/d", Ok((0, 7))),
    (SMALL, Asked::List, b"/", Ok((4, 7))),
    (SMALL, Asked::List, b"/a", Err(Refusal::NotDir)),
    (NO_FLAG, Asked::List, b"/", Err(AT_29)),
    (ON_ZEROS, Asked::List, b"/", Err(AT_44)),
    (SMALL, Asked::Readlink, b"/b", Ok((3, 120))),
    (SMALL, Asked::Readlink, b"/c", Ok((4098, 100))),
    (SMALL, Asked::Readlink, b"/a", Err(Refusal::NotFile)),
    (SMALL, Asked::Read, b"/a", Ok((4, 66))),
    (SMALL, Asked::Read, b"/c", Err(Refusal::NotFile)),
    (SMALL, Asked::Truncate, b"/c", Err(Refusal::NotFile)),
    (SMALL, Asked::Sync, b"/", Ok((0, 0))),
];

// A chmod changes one line of an inode. A new name changes two runs of its directory's lines: times and the tree's head; its slot. Then come the object's: all of them; of a symbolic link the
// fields and the target; and before them four pages, where an inode extent is made. An inode that gets a further name changes in one line. A name that goes changes one run of its
// directory's lines, and the inode of what it named; the one block of a file, or of a long link, is freed. A truncate writes its block whole, with zeros behind the new end.
#[rattlefmt::skip]
static CHANGES: [Row; 13] = [
    (SMALL, Asked::Chmod, b"/a", Ok((1, 0))),
    (LARGE, Asked::Mkdir, b"/n", Ok((3, 0))),
    (LARGE, Asked::Create, b"/n", Ok((3, 0))),
    (LARGE, Asked::Symlink, b"/n", Ok((4, 0))),
    (LARGE, Asked::Link, b"/a", Ok((3, 0))),
    (ALL_IN_USE, Asked::Mkdir, b"/n", Ok((4, 0))),
    (ALL_IN_USE, Asked::Create, b"/n", Ok((4, 0))),
    (ALL_IN_USE, Asked::Symlink, b"/n", Ok((5, 0))),
    (SMALL, Asked::Unlink, b"/a", Ok((3, 0))),
    (SMALL, Asked::Unlink, b"/c", Ok((3, 0))),
    (SMALL, Asked::Unlink, b"/d", Ok((2, 0))),
    (WITH_DIRECTORY, Asked::Rmdir, b"/d", Ok((2, 0))),
    (SMALL, Asked::Truncate, b"/a", Ok((1, 1))),
];

/// The first row that is answered in another way.
pub fn first_wrong(alloc: Global, rows: &[Row]) -> Option<usize> {
    for (i, (given, asked, path, wanted)) in rows.iter().enumerate() {
        if answer(alloc, *given, *asked, path) != Some(*wanted) {
            return Some(i);
        }
    }
    None
}

#[test]
fn calls_are_answered(rt: HostRuntime) {
    assert!(rt; first_wrong(rt.alloc(), &ANSWERS) == None);
}

#[test]
fn changes_are_answered(rt: HostRuntime) {
    assert!(rt; first_wrong(rt.alloc(), &CHANGES) == None);
}
