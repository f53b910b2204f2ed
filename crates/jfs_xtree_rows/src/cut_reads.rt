//! Cuts of trees by hand, on a volume that counts its reads: whatever the pages name, none is freed twice, and few are read more than once.

use crate::racks::Step::{self, Cut, CutBad, Inner, Leaf, Root, Ten, Three};
use crate::racks::{SECOND, held};
use jfs_bits::Rule;
use std::test::*;

static WHOLE: [Step; 5] = [
    // each page is read once, and one that is changed once more
    Cut(0, 6),
    Cut(45, 5),
    Cut(18446744073709551615, 4),
    // nothing begins below this block
    Cut(1, 6),
    Cut(4, 8),
];

#[test]
fn three_levels(rt: HostRuntime) {
    assert_eq!(rt; held(rt.alloc(), &WHOLE), 5);
}

static TEN_TIMES: [Step; 9] = [
    // three levels, five and eight: the leaf's first extent isn't at the second key
    Ten(1),
    CutBad(0, 2, Rule::Order, 3),
    CutBad(15, 2, Rule::Order, 2),
    Ten(3),
    CutBad(0, 4, Rule::Order, 5),
    CutBad(15, 4, Rule::Order, 4),
    Ten(6),
    CutBad(0, 7, Rule::Order, 8),
    CutBad(15, 7, Rule::Order, 7),
];

#[test]
fn pages_that_name_one_child_ten_times(rt: HostRuntime) {
    assert_eq!(rt; held(rt.alloc(), &TEN_TIMES), 9);
}

static ITSELF: [Step; 5] = [
    // on the way, up to the last level, and behind it
    Inner(1, (0, 1, 1), (8, 1, 4)),
    CutBad(0, 1, Rule::Deep, 7),
    Inner(1, (0, 1, 3), (8, 1, 1)),
    CutBad(0, 1, Rule::Deep, 3),
    CutBad(9, 1, Rule::Deep, 7),
];

#[test]
fn a_page_that_names_itself(rt: HostRuntime) {
    assert_eq!(rt; held(rt.alloc(), &ITSELF), 5);
}

static SHARED: [Step; 5] = [
    // a leaf with two parents, and an inner page at two places of the root
    Inner(2, (40, 1, 4), (50, 1, 6)),
    CutBad(0, 4, Rule::Order, 5),
    Three,
    Root((40, 1, 1)),
    CutBad(0, 3, Rule::Order, 5),
];

#[test]
fn pages_named_twice(rt: HostRuntime) {
    assert_eq!(rt; held(rt.alloc(), &SHARED), 5);
}

static KEYS: [Step; 9] = [
    // a key that isn't the first offset below it, behind the way and on it
    Inner(1, (0, 1, 3), (9, 1, 4)),
    CutBad(0, 4, Rule::Order, 3),
    CutBad(13, 4, Rule::Order, 2),
    // a key below the end of what stands before it: the child isn't read
    Inner(1, (0, 1, 3), (5, 1, 4)),
    CutBad(0, 4, Rule::Order, 2),
    // and one below its page's own key
    Inner(2, (10, 1, 5), (20, 1, 6)),
    CutBad(100, 6, Rule::Order, 1),
    Root(SECOND),
    CutBad(100, 6, Rule::Order, 1),
];

#[test]
fn keys_that_do_not_fit(rt: HostRuntime) {
    assert_eq!(rt; held(rt.alloc(), &KEYS), 9);
}

static LEVELS: [Step; 5] = [
    // a leaf above the level of the way's leaf, and an inner page on it
    Leaf(2, (40, 1, 33), (44, 6, 40)),
    CutBad(0, 2, Rule::Deep, 4),
    Three,
    Inner(4, (8, 1, 7), (12, 1, 8)),
    CutBad(0, 4, Rule::Deep, 3),
];

#[test]
fn leaves_at_one_level(rt: HostRuntime) {
    assert_eq!(rt; held(rt.alloc(), &LEVELS), 5);
}
