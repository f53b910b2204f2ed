//! Lookups in trees by hand, each rule broken once at the root and once at a page, pages that name themselves, reads that fail.

use crate::trees::Step::{self, Bad, Clear, Entry, Fault, Find, Head, Inner, Leaf, Lose, Miss};
use crate::trees::{ROOT, held};
use jfs_bits::Rule;
use std::test::*;

static OF_ROOT: [Step; 9] = [
    Leaf,
    Miss(2),
    Find(3, 3, 3, 20),
    Find(5, 3, 3, 20),
    Miss(6),
    Find(9, 9, 1, 30),
    Miss(18446744073709551615),
    Clear,
    Miss(3),
];

#[test]
fn extents_of_a_root(rt: HostRuntime) {
    assert_eq!(rt; held(rt.alloc(), &OF_ROOT), 9);
}

static OF_PAGES: [Step; 7] = [
    Inner,
    Miss(0),
    Find(4, 3, 3, 20),
    Miss(7),
    Find(8, 8, 1, 30),
    Find(40, 40, 1, 31),
    Miss(41),
];

#[test]
fn extents_of_pages(rt: HostRuntime) {
    assert_eq!(rt; held(rt.alloc(), &OF_PAGES), 7);
}

static BROKEN_ROOT: [Step; 20] = [
    Leaf,
    Head(0, 0x82, 4, 18),
    Bad(3, ROOT, Rule::Flag),
    Head(0, 0x83, 4, 11),
    Bad(3, ROOT, Rule::Max),
    Head(0, 0x83, 1, 18),
    Bad(3, ROOT, Rule::Count),
    Head(0, 0x83, 19, 18),
    Bad(3, ROOT, Rule::Count),
    Head(0, 0x83, 4, 18),
    Entry(0, 0, 7, 3, 20),
    Bad(3, ROOT, Rule::Order),
    Entry(0, 0, 6, 3, 61),
    Find(6, 6, 3, 61),
    Entry(0, 0, 6, 3, 62),
    Bad(6, ROOT, Rule::Range),
    Entry(0, 0, 6, 0, 20),
    Bad(6, ROOT, Rule::Range),
    Head(0, 0x85, 2, 18),
    Bad(6, ROOT, Rule::Deep),
];

#[test]
fn a_root_that_breaks_a_rule(rt: HostRuntime) {
    assert_eq!(rt; held(rt.alloc(), &BROKEN_ROOT), 20);
}

static BROKEN_PAGE: [Step; 17] = [
    Inner,
    Head(2, 3, 4, 256),
    Bad(40, 2, Rule::Flag),
    Head(2, 2, 4, 18),
    Bad(40, 2, Rule::Max),
    Head(2, 2, 257, 256),
    Bad(40, 2, Rule::Count),
    Head(2, 2, 4, 256),
    Entry(2, 0, 40, 1, 30),
    Bad(40, 2, Rule::Order),
    Entry(2, 0, 8, 1, 64),
    Bad(40, 2, Rule::Range),
    Head(2, 4, 2, 256),
    Bad(40, 2, Rule::Deep),
    Head(2, 2, 2, 256),
    Bad(40, 2, Rule::Deep),
    // the other page is as it was
    Find(4, 3, 3, 20),
];

#[test]
fn a_page_that_breaks_a_rule(rt: HostRuntime) {
    assert_eq!(rt; held(rt.alloc(), &BROKEN_PAGE), 17);
}

static ITSELF: [Step; 4] = [
    Inner,
    Head(1, 4, 3, 256),
    Entry(1, 0, 0, 1, 1),
    Bad(4, 1, Rule::Deep),
];

#[test]
fn a_page_that_names_itself(rt: HostRuntime) {
    assert_eq!(rt; held(rt.alloc(), &ITSELF), 4);
}

static UNREAD: [Step; 4] = [Inner, Lose(2), Fault(8, 1), Find(4, 3, 3, 20)];

#[test]
fn a_page_that_cannot_be_read(rt: HostRuntime) {
    assert_eq!(rt; held(rt.alloc(), &UNREAD), 4);
}
