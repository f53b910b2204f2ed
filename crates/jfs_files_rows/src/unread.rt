//! Reads that fail, each in turn: of calls on a sound volume, and on trees in which a page names another one many times.

use crate::given::{Asked, Counted, Given, LARGE, LARGE_WITH_DIRECTORY, answer, answer_by};
use crate::trees::Tree;
use crate::words::{INNER_ROOT, Word};
use jfs_bits::Rule;
use jfs_disk::{Fault, Part};
use jfs_plain::Refusal;
use std::alloc::Global;
use std::test::*;

const FAULT: Fault = Fault {
    part: Part::Whole,
    count: 1,
};

/// Whether a call answers the fault where one of its reads fails, of which there are so many, and where a later one would the same as where none does.
fn is_told(alloc: Global, given: Given<'_>, asked: Asked, path: &[u8], reads: u64) -> bool {
    let whole = answer(alloc, given, asked, path);
    for number in 1..reads.saturating_add(3) {
        let came = answer_by(alloc, number, given, asked, path);
        let wanted = if number <= reads {
            Some(Err(Refusal::IoFault { fault: FAULT }))
        } else {
            whole
        };
        if came != wanted {
            return false;
        }
    }
    whole.is_some()
}

// Inodes that are in use stand on one page, which is read first; a new one stands on the next page, which is read for its generation, and again after the first one for its lines. A file's bytes, and those of a long link, stand on another.
#[rattlefmt::skip]
static READS: [(Asked, &[u8], u64); 18] = [
    (Asked::Mkdir, b"/n", 4),
    (Asked::Create, b"/n", 4),
    (Asked::Symlink, b"/n", 4),
    (Asked::Link, b"/a", 1),
    (Asked::Unlink, b"/a", 1),
    (Asked::Unlink, b"/c", 1),
    (Asked::Rmdir, b"/d", 1),
    (Asked::Chmod, b"/a", 1),
    (Asked::Stat, b"/d", 1),
    (Asked::List, b"/", 1),
    (Asked::Readlink, b"/c", 2),
    (Asked::Read, b"/a", 2),
    (Asked::Truncate, b"/a", 3),
    (Asked::Write, b"/a", 3),
    (Asked::Fill, b"/a", 3),
    (Asked::Rename, b"/a", 1),
    (Asked::Rename, b"/d", 1),
    (Asked::Sync, b"/", 0),
];

// A read that fails is told with the count of faults. One behind those that the call makes isn't.
#[test]
fn reads_fail_in_turn(rt: HostRuntime) {
    for (asked, path, reads) in READS.iter() {
        let given = LARGE_WITH_DIRECTORY;
        assert!(rt;
            is_told(rt.alloc(), given, *asked, path, *reads),
            "{path:?}"
        );
    }
}

/// A root directory whose child is page 44, with seven pages one below the other.
const SEVEN_DEEP: Given<'static> = Given {
    words: &INNER_ROOT,
    tree: Tree::Names(7),
    ..LARGE
};

/// The same with six pages.
const SIX_DEEP: Given<'static> = Given {
    tree: Tree::Names(6),
    ..SEVEN_DEEP
};

/// The root of inode 4 has one child, page 44.
const INNER_FILE: [Word; 4] = [
    (29, 2288, 0x0003_0085),
    (29, 2308, 0),
    (29, 2312, 1),
    (29, 2316, 44),
];

/// Inode 4 is a file with four pages one below the other.
const TALL_FILE: Given<'static> = Given {
    words: &INNER_FILE,
    tree: Tree::Extents(4),
    ..LARGE
};

/// The volume, the call, its path, how many pages it reads, and what it answers.
type Row = (Given<'static>, Asked, &'static [u8], u64, Counted);

const TOO_DEEP: Counted = Err(Refusal::TooDeep { inode: 2 });

/// The page of names whose parent's keys don't fit.
const AT_50: Counted = Err(Refusal::Damaged {
    page: 50,
    rule: Rule::Order,
});

/// The parent of the page that is halved has no place for the new key.
const AT_48: Counted = Err(Refusal::Damaged {
    page: 48,
    rule: Rule::Order,
});

const AT_47: Counted = Err(Refusal::Damaged {
    page: 47,
    rule: Rule::Order,
});

// One way is gone for a name, and once more to see whether it is too deep; a page that is changed is read three times. A list ends at the second page that doesn't stand behind the first. The page of the inodes is read before the way, and again behind it for the inode at its end. A truncate reads the
// block of its end too, and goes the way twice.
#[rattlefmt::skip]
static HOSTILE: [Row; 16] = [
    (SEVEN_DEEP, Asked::Create, b"/nn", 15, TOO_DEEP),
    (SEVEN_DEEP, Asked::Link, b"/x", 23, TOO_DEEP),
    (SEVEN_DEEP, Asked::Rename, b"/x", 23, TOO_DEEP),
    (SEVEN_DEEP, Asked::List, b"/", 8, AT_50),
    (SEVEN_DEEP, Asked::Stat, b"/x", 9, Ok((0, 4))),
    (SEVEN_DEEP, Asked::Stat, b"/xx", 8, Err(Refusal::NotFound)),
    (SEVEN_DEEP, Asked::Rmdir, b"/x", 9, Err(Refusal::NotDir)),
    (SEVEN_DEEP, Asked::Chmod, b"/x", 9, Ok((1, 0))),
    (SIX_DEEP, Asked::Create, b"/nn", 33, AT_48),
    (SIX_DEEP, Asked::Link, b"/x", 38, AT_48),
    (SIX_DEEP, Asked::Rename, b"/x", 38, AT_48),
    (TALL_FILE, Asked::Read, b"/a", 6, Ok((4, 66))),
    (TALL_FILE, Asked::Write, b"/a", 5, AT_47),
    (TALL_FILE, Asked::Fill, b"/a", 5, AT_47),
    (TALL_FILE, Asked::Truncate, b"/a", 10, AT_47),
    (TALL_FILE, Asked::Unlink, b"/a", 5, AT_47),
];

#[test]
fn pages_that_are_named_many_times(rt: HostRuntime) {
    let alloc = rt.alloc();
    for (given, asked, path, reads, wanted) in HOSTILE.iter() {
        assert!(rt;
            answer(alloc, *given, *asked, path) == Some(*wanted),
            "{path:?} {reads}"
        );
        assert!(rt;
            is_told(alloc, *given, *asked, path, *reads),
            "{path:?} {reads}"
        );
    }
}
