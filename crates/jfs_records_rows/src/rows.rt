//! Rows worked out by hand: a record has 36 bytes beside its data, a range 4 beside its lines, a run 8, and the COMMIT 36.

use crate::row::Step::{self, Alloc, Free, Lines, NoRedo};
use crate::row::holds;
use crate::told::Kind::{self, Commit, Removed, SyncPt, Update};
use crate::told::are_told;
use jfs_bits::PageKind::{Dtree, Inode, Xtree};

// The edits, how many ranges or runs each of their records has, and the bytes of the entry.
type Row = (&'static [Step], &'static [usize], u64);

#[rattlefmt::skip]
static ROWS: [Row; 10] = [
    // A change of nothing has its COMMIT.
    (&[], &[], 36),
    // A change of mode.
    (&[Lines(0, false, 20, Inode, 8, 1)], &[1], 204),
    // Two ranges of one page, and a block.
    (&[Lines(4, false, 30, Dtree, 0, 1), Lines(4, false, 30, Dtree, 9, 2), Alloc(4, 99)], &[2, 1], 220),
    // Another page, another owner, and the same page as a new one.
    (&[Lines(4, false, 30, Dtree, 0, 1), Lines(4, false, 31, Dtree, 0, 1), Lines(4, false, 30, Dtree, 0, 1), Lines(5, false, 30, Dtree, 0, 1), Lines(5, true, 30, Dtree, 0, 1)],
        &[1, 1, 1, 1, 1], 396),
    // Pages that go, by turns with their blocks, and before them.
    (&[NoRedo(4, 20), Free(4, 20, 1), NoRedo(4, 21), Free(4, 21, 1)], &[0, 1, 0, 1], 196),
    (&[NoRedo(4, 20), NoRedo(4, 21), Free(4, 20, 2)], &[0, 0, 2], 160),
    // Blocks of two objects, and blocks that are taken and freed.
    (&[Alloc(4, 50), Alloc(5, 51), Free(5, 52, 1)], &[1, 1, 1], 168),
    // A list has at most 8,191 runs.
    (&[Free(4, 100, 8192)], &[8191, 1], 65_644),
    // A record's data has fewer than 65,536 bytes: 15 times a whole page.
    (&[Lines(4, false, 30, Xtree, 0, 256); 16], &[15, 1], 65_708),
    // New inodes come four pages at once, which join nothing.
    (&[Lines(32, true, 100, Inode, 0, 128); 2], &[1, 1], 32_884),
];

#[test]
fn records_hold_what_they_can(rt: HostRuntime) {
    for i in 0..ROWS.len() {
        assert!(rt;
            holds(rt.alloc(), ROWS[i].0, ROWS[i].1, ROWS[i].2),
            "row {i}"
        );
    }
}

// Records, and how many edits each of their committed transactions has.
type Told = (&'static [Kind], &'static [usize]);

#[rattlefmt::skip]
static TOLD: [Told; 4] = [
    (&[], &[]),
    (&[SyncPt, Commit], &[0]),
    // What no COMMIT ends is no transaction.
    (&[Removed(20), Update(3), Commit, SyncPt, Update(2), Commit, Removed(21)], &[4, 2]),
    (&[Removed(20), Removed(21)], &[]),
];

#[test]
fn what_a_commit_ends_is_a_transaction(rt: HostRuntime) {
    for i in 0..TOLD.len() {
        assert!(rt; are_told(rt.alloc(), TOLD[i].0, TOLD[i].1), "row {i}");
    }
}
