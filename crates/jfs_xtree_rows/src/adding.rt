//! Extents added at the end, before others and between them, beside the plain list; overlaps are refused.

use crate::steps::Step::{
    self, Add, AddAll, AddBetween, AddDown, Agree, Cut, Narrow, Pages, Refuse, StaysNarrow,
};
use crate::steps::held;
use std::test::*;

/// A root that stands for itself where it is at fault.
const ROOT: u32 = 4294967295;

/// Blocks 10 to 12 and 20 to 22 are taken: what begins, ends or lies in them or around them isn't.
static OVERLAPS: [Step; 12] = [
    Add(10, 3),
    Add(20, 3),
    Refuse(10, 3, ROOT),
    Refuse(12, 1, ROOT),
    Refuse(8, 3, ROOT),
    Refuse(9, 5, ROOT),
    Refuse(22, 2, ROOT),
    Refuse(13, 8, ROOT),
    Agree(30),
    // it fits between them whole
    Add(13, 7),
    Agree(30),
    Pages(0),
];

#[test]
fn overlaps_are_refused(rt: HostRuntime) {
    assert_eq!(rt; held(rt.alloc(), &OVERLAPS), 12);
}

static AT_THE_END: [Step; 9] = [
    AddAll(0, 16, 3, 2),
    Pages(0),
    // a root has 16 entries, and a page 254
    AddAll(16, 254, 3, 2),
    Pages(1),
    // the pages before the last stay full
    AddAll(254, 509, 3, 2),
    Pages(3),
    Refuse(1, 1, 0),
    Refuse(1525, 1, 2),
    Agree(1600),
];

#[test]
fn extents_at_the_end(rt: HostRuntime) {
    assert_eq!(rt; held(rt.alloc(), &AT_THE_END), 9);
}

static BEFORE_OTHERS: [Step; 3] = [
    AddDown(600),
    // a page that is full at 254 entries keeps 127 and the new one: entries 17, 255, 382 and 509 take a page
    Pages(4),
    Agree(1300),
];

#[test]
fn extents_before_others(rt: HostRuntime) {
    assert_eq!(rt; held(rt.alloc(), &BEFORE_OTHERS), 3);
}

static BETWEEN: [Step; 3] = [AddAll(0, 300, 4, 1), AddBetween(300), Agree(1300)];

#[test]
fn extents_between_others(rt: HostRuntime) {
    assert_eq!(rt; held(rt.alloc(), &BETWEEN), 3);
}

/// The first leaf's extents are two blocks each from 30 on. What shares a block with the first one is refused though its place is the first, and so it is behind a second leaf's key.
static AT_THE_FIRST_PLACE: [Step; 9] = [
    AddAll(10, 264, 3, 2),
    Pages(1),
    Refuse(29, 2, 0),
    Refuse(28, 24, 0),
    AddAll(264, 265, 3, 2),
    Pages(2),
    Refuse(29, 2, 0),
    Refuse(792, 1, 1),
    Agree(900),
];

#[test]
fn overlaps_at_the_first_place(rt: HostRuntime) {
    assert_eq!(rt; held(rt.alloc(), &AT_THE_FIRST_PLACE), 9);
}

static BESIDE_ATTRIBUTES: [Step; 16] = [
    Narrow,
    Add(10, 3),
    StaysNarrow,
    // 8 entries have a slot each; with the ninth the root moves to a page
    AddAll(10, 17, 3, 2),
    Pages(0),
    StaysNarrow,
    AddAll(17, 18, 3, 2),
    Pages(1),
    StaysNarrow,
    // 7 pages behind the first one, and the root moves once more
    AddAll(18, 2050, 3, 2),
    Pages(10),
    StaysNarrow,
    // inside the page below the root, where four of its nine leaves stay, and to nothing
    Cut(3050, 5, 2071),
    StaysNarrow,
    Cut(0, 5, 2022),
    StaysNarrow,
];

#[test]
fn a_root_beside_attributes(rt: HostRuntime) {
    assert_eq!(rt; held(rt.alloc(), &BESIDE_ATTRIBUTES), 16);
}
