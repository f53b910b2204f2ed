//! Extents cut inside, at borders and to nothing, beside the plain list; what is free is counted by hand.

use crate::steps::Step::{self, Add, AddAll, Agree, Cut, Narrow, Pages, StaysNarrow};
use crate::steps::held;
use std::test::*;

static ALONE: [Step; 10] = [
    // nothing is there yet
    Cut(0, 0, 0),
    Add(10, 3),
    Add(20, 3),
    // past the end, at the end, inside the last one, before it, at a border and between them
    Cut(18446744073709551615, 0, 0),
    Cut(23, 0, 0),
    Cut(22, 0, 1),
    Cut(20, 0, 2),
    Cut(13, 0, 0),
    Cut(11, 0, 2),
    Cut(10, 0, 1),
];

#[test]
fn a_root_alone(rt: HostRuntime) {
    assert_eq!(rt; held(rt.alloc(), &ALONE), 10);
}

static TWO_LEVELS: [Step; 11] = [
    // three pages: 254 extents, 254 and 1, of two blocks each
    AddAll(0, 509, 3, 2),
    Pages(3),
    // inside the last extent, and before it: its page goes with it
    Cut(1525, 0, 1),
    Cut(1524, 1, 2),
    // inside the second page, then to the first page's last extent
    Cut(1000, 0, 349),
    Cut(762, 1, 160),
    Cut(1, 0, 507),
    Cut(0, 1, 2),
    // the root is a leaf that takes extents again
    AddAll(0, 16, 3, 2),
    Pages(3),
    Agree(100),
];

#[test]
fn two_levels(rt: HostRuntime) {
    assert_eq!(rt; held(rt.alloc(), &TWO_LEVELS), 11);
}

static TO_NOTHING: [Step; 3] = [
    AddAll(0, 255, 2, 1),
    Pages(2),
    // 255 blocks of extents and both pages
    Cut(0, 2, 257),
];

#[test]
fn two_pages_to_nothing(rt: HostRuntime) {
    assert_eq!(rt; held(rt.alloc(), &TO_NOTHING), 3);
}

static BESIDE_ATTRIBUTES: [Step; 15] = [
    Narrow,
    // eight extents of two blocks each, as many as the root has slots for
    AddAll(0, 8, 3, 2),
    // inside the last one, to its border, and inside the fourth one
    Cut(22, 0, 1),
    StaysNarrow,
    Cut(21, 0, 1),
    StaysNarrow,
    Cut(10, 0, 7),
    StaysNarrow,
    // eight more make twelve, which stand on a page: inside the sixth one there, and to nothing
    AddAll(4, 12, 3, 2),
    Pages(1),
    StaysNarrow,
    Cut(16, 0, 13),
    StaysNarrow,
    Cut(0, 1, 11),
    StaysNarrow,
];

#[test]
fn a_root_beside_attributes(rt: HostRuntime) {
    assert_eq!(rt; held(rt.alloc(), &BESIDE_ATTRIBUTES), 15);
}
