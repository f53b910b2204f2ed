//! All extents of trees by hand: each rule broken once at the root, at a middle page and at a leaf, keys and levels, and each read failing.

use crate::rack::{Rack, listed};
use crate::racks::Step::{
    self, Chain, Clear, Fault, Head, Inner, Leaf, Listed, Lists, Lose, Reads, Recount, Refuse,
    Root, RootHead, Ten, Three,
};
use crate::racks::{ROOT, SECOND, held};
use crate::shelf::{entry, head};
use jfs_bits::Rule;
use std::alloc::Global;
use std::test::*;

// each page is read once
static THREE: [Step; 2] = [
    Lists(&[
        (3, 2, 20),
        (5, 1, 23),
        (8, 1, 30),
        (12, 2, 31),
        (40, 1, 33),
        (44, 6, 40),
        (50, 4, 34),
        (60, 1, 38),
    ]),
    Reads(6),
];

#[test]
fn three_levels(rt: HostRuntime) {
    assert_eq!(rt; held(rt.alloc(), &THREE), 2);
}

static NO_PAGES: [Step; 6] = [
    Root((9, 1, 30)),
    RootHead(0x83, 4, 18),
    Lists(&[(0, 1, 1), (9, 1, 30)]),
    Clear,
    Lists(&[]),
    Reads(0),
];

/// Whether a small root has one extent.
fn is_one(alloc: Global, rack: &mut Rack) -> bool {
    let mut small = [0; 96];
    head(&mut small, 0x83, 3, 6);
    entry(&mut small, 0, 7, 2, 20);
    match listed(alloc, rack, &small) {
        Ok(list) => list.len() == 1,
        Err(_) => false,
    }
}

#[test]
fn roots_without_pages(rt: HostRuntime) {
    assert_eq!(rt; held(rt.alloc(), &NO_PAGES), 6);
    let mut rack = Rack::three_levels(rt.alloc()).expect(&rt, "memory");
    assert!(rt; is_one(rt.alloc(), &mut rack));
}

// none of them reads a page
static ROOTS: [Step; 14] = [
    RootHead(0x84, 4, 18),
    Refuse(ROOT, Rule::Flag),
    RootHead(0x85, 4, 11),
    Refuse(ROOT, Rule::Max),
    RootHead(0x85, 19, 18),
    Refuse(ROOT, Rule::Count),
    Root((0, 1, 2)),
    Refuse(ROOT, Rule::Order),
    Root((40, 1, 64)),
    Refuse(ROOT, Rule::Range),
    Root(SECOND),
    RootHead(0x85, 2, 18),
    Refuse(ROOT, Rule::Deep),
    Reads(0),
];

#[test]
fn a_root_breaks_each_rule(rt: HostRuntime) {
    assert_eq!(rt; held(rt.alloc(), &ROOTS), 14);
}

static MIDDLE: [Step; 12] = [
    Head(2, 5, 4, 256),
    Refuse(2, Rule::Flag),
    Head(2, 4, 4, 18),
    Refuse(2, Rule::Max),
    Head(2, 4, 257, 256),
    Refuse(2, Rule::Count),
    Inner(2, (40, 1, 5), (40, 1, 6)),
    Refuse(2, Rule::Order),
    Inner(2, (40, 1, 5), (50, 0, 6)),
    Refuse(2, Rule::Range),
    Head(2, 4, 2, 256),
    Refuse(2, Rule::Deep),
];

#[test]
fn a_middle_page_breaks_each_rule(rt: HostRuntime) {
    assert_eq!(rt; held(rt.alloc(), &MIDDLE), 12);
}

static LEAF: [Step; 15] = [
    Head(6, 3, 4, 256),
    Refuse(6, Rule::Flag),
    Head(6, 2, 4, 18),
    Refuse(6, Rule::Max),
    Head(6, 2, 1, 256),
    Refuse(6, Rule::Count),
    Leaf(6, (50, 4, 34), (53, 1, 38)),
    Refuse(6, Rule::Order),
    Leaf(6, (50, 4, 61), (60, 1, 38)),
    Refuse(6, Rule::Range),
    // below a root no leaf is empty
    Head(6, 2, 2, 256),
    Refuse(6, Rule::Deep),
    Leaf(6, (50, 4, 34), (60, 1, 38)),
    Head(3, 2, 2, 256),
    Refuse(3, Rule::Deep),
];

#[test]
fn a_leaf_breaks_each_rule(rt: HostRuntime) {
    assert_eq!(rt; held(rt.alloc(), &LEAF), 15);
}

static KEYS: [Step; 13] = [
    // the key is the first block below it
    Root((39, 1, 2)),
    Refuse(5, Rule::Order),
    Root((41, 1, 2)),
    Refuse(5, Rule::Order),
    // it isn't before the end of what stands before it
    Root((13, 1, 2)),
    Refuse(2, Rule::Order),
    Root(SECOND),
    Leaf(3, (3, 2, 20), (5, 4, 23)),
    Refuse(4, Rule::Order),
    // an extent may end where the next page's key is
    Leaf(3, (3, 2, 20), (5, 3, 23)),
    Listed,
    // the key of a page's first child isn't looked at
    Inner(2, (1, 1, 5), (50, 1, 6)),
    Listed,
];

#[test]
fn keys_across_pages(rt: HostRuntime) {
    assert_eq!(rt; held(rt.alloc(), &KEYS), 13);
}

static TWICE: [Step; 11] = [
    // page 1 once more
    Root((40, 1, 1)),
    Refuse(3, Rule::Order),
    Root(SECOND),
    // page 5 twice, one behind the other
    Inner(2, (40, 1, 5), (50, 1, 5)),
    Refuse(5, Rule::Order),
    // page 2 names itself, below the first path and on it
    Inner(2, (40, 1, 2), (50, 1, 6)),
    Refuse(2, Rule::Deep),
    Inner(1, (0, 1, 1), (8, 1, 4)),
    Recount,
    Refuse(1, Rule::Deep),
    Reads(7),
];

#[test]
fn pages_named_twice(rt: HostRuntime) {
    assert_eq!(rt; held(rt.alloc(), &TWICE), 11);
}

// Pages that name the next one ten times, at three levels, five and eight: each page is read once, and the leaf once more, whose first extent isn't at the second key.
static TEN_TIMES: [Step; 9] = [
    Ten(1),
    Refuse(2, Rule::Order),
    Reads(3),
    Ten(3),
    Refuse(4, Rule::Order),
    Reads(5),
    Ten(6),
    Refuse(7, Rule::Order),
    Reads(8),
];

#[test]
fn pages_that_name_one_child_ten_times(rt: HostRuntime) {
    assert_eq!(rt; held(rt.alloc(), &TEN_TIMES), 9);
}

static ONE_LEVEL: [Step; 5] = [
    // a leaf above the level of the first one
    Root((50, 1, 6)),
    Refuse(6, Rule::Deep),
    Root(SECOND),
    // an inner page at that level
    Inner(1, (0, 1, 3), (8, 1, 2)),
    Refuse(2, Rule::Deep),
];

#[test]
fn leaves_at_one_level(rt: HostRuntime) {
    assert_eq!(rt; held(rt.alloc(), &ONE_LEVEL), 5);
}

static NINTH: [Step; 7] = [
    RootHead(0x85, 3, 18),
    Chain(6),
    Lists(&[(3, 2, 20), (5, 1, 23)]),
    Reads(7),
    // it is named unread
    Chain(7),
    Refuse(8, Rule::Deep),
    Reads(7),
];

#[test]
fn a_ninth_level(rt: HostRuntime) {
    assert_eq!(rt; held(rt.alloc(), &NINTH), 7);
}

#[rattlefmt::skip]
static UNREAD: [Step; 24] = [
    Three, Lose(1), Fault, Reads(0),
    Three, Lose(3), Fault, Reads(1),
    Three, Lose(4), Fault, Reads(2),
    Three, Lose(2), Fault, Reads(3),
    Three, Lose(5), Fault, Reads(4),
    Three, Lose(6), Fault, Reads(5),
];

#[test]
fn each_read_fails(rt: HostRuntime) {
    assert_eq!(rt; held(rt.alloc(), &UNREAD), 24);
}
