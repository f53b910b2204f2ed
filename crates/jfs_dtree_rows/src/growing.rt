//! Names of 241 units, of which 238 are the same: leaves have 7 of them, and inner pages 8 children.

use crate::facts::Fact::{Ended, Pages};
use crate::steps::Step::{self, AddAll, AddDown, FindAll, Is, RemoveAll};
use crate::steps::held;
use crate::units::Kind::Long;
use std::test::*;

static AT_THE_END: [Step; 11] = [
    // the first name is too long for the root, which moves down
    AddAll(Long, 0, 7),
    Is(Pages(1)),
    // a second leaf, whose key is too long for the root
    AddAll(Long, 7, 8),
    Is(Pages(3)),
    // leaves are left full: eight of them
    AddAll(Long, 8, 56),
    Is(Pages(9)),
    // the ninth leaf is one child too many: two inner pages, and the root moves down again
    AddAll(Long, 56, 57),
    Is(Pages(12)),
    FindAll(Long, 60),
    AddAll(Long, 57, 400),
    FindAll(Long, 410),
];

#[test]
fn names_at_the_end(rt: HostRuntime) {
    assert!(rt; held(rt.alloc(), &AT_THE_END) == 11);
}

static BEFORE_OTHERS: [Step; 2] = [AddDown(Long, 200, 200), FindAll(Long, 210)];

#[test]
fn names_before_others(rt: HostRuntime) {
    assert!(rt; held(rt.alloc(), &BEFORE_OTHERS) == 2);
}

static FIRST_CHILD: [Step; 12] = [
    AddAll(Long, 0, 71),
    Is(Pages(14)),
    // the second inner page's first leaf, with names 56 to 62, is empty then
    RemoveAll(Long, 56, 63),
    Is(Pages(13)),
    FindAll(Long, 80),
    // these names come before the first key that is left, which is name 63: names 62 and 58 split its leaf, at 66 and at 62
    AddDown(Long, 63, 7),
    Is(Pages(15)),
    FindAll(Long, 80),
    RemoveAll(Long, 0, 71),
    Is(Pages(0)),
    Is(Ended(16)),
    FindAll(Long, 80),
];

#[test]
fn the_first_child_goes(rt: HostRuntime) {
    assert!(rt; held(rt.alloc(), &FIRST_CHILD) == 12);
}
