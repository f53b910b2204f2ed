//! Cuts in trees by hand: pages that break a rule or name themselves, and reads that fail, leave root and transaction as they were.

use crate::trees::Step::{self, Cut, CutBad, CutFault, Entry, Head, Inner, Lose};
use crate::trees::held;
use jfs_bits::Rule;
use std::test::*;

static READS: [Step; 10] = [
    Inner,
    Cut(0),
    Lose(1),
    CutFault(0, 1),
    CutFault(8, 2),
    // the page before the one with the bound isn't read
    Cut(9),
    Lose(2),
    CutFault(0, 3),
    CutFault(5, 4),
    CutFault(9, 5),
];

#[test]
fn reads_that_fail(rt: HostRuntime) {
    assert_eq!(rt; held(rt.alloc(), &READS), 10);
}

static PAGES: [Step; 8] = [
    Inner,
    Head(2, 3, 4, 256),
    CutBad(0, 2, Rule::Flag),
    CutBad(9, 2, Rule::Flag),
    // a page that names itself, on the way and among those that are freed
    Head(2, 4, 3, 256),
    Entry(2, 0, 8, 1, 2),
    CutBad(0, 2, Rule::Deep),
    CutBad(9, 2, Rule::Deep),
];

#[test]
fn pages_that_break_a_rule(rt: HostRuntime) {
    assert_eq!(rt; held(rt.alloc(), &PAGES), 8);
}
