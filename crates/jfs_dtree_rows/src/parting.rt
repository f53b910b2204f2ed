//! What a split of a leaf leaves, worked out by hand: names of 13 units take one slot of the 123, those of 241 units 17.
//!
//! A page's byte 17 is the number of its entries, 18 that of its free slots; its bytes 0 and 8 are the pages behind it and before it.

use crate::facts::Fact::{Byte, Child};
use crate::steps::Step::{self, Add, AddAll, FindAll, Is};
use crate::steps::held;
use crate::units::Kind::{Behind, Even, Longer, Small};
use std::test::*;

const AT_THE_END: &'static [Step] = &[
    // a leaf, page 0, that is full of names of one slot, with numbers 0 to 244
    AddAll(Even, 0, 123),
    Is(Byte(0, 18, 0)),
    Add(Small, 246, 246),
    Is(Byte(0, 17, 123)),
    Is(Byte(1, 17, 1)),
    Is(Byte(0, 0, 1)),
    Is(Byte(1, 8, 0)),
    Is(Byte(1, 0, 0)),
    // `n246` is told from `n244` by its fourth unit
    Is(Child(0, 0, 0, 255)),
    Is(Child(1, 1, 4, b'6')),
];

const BEHIND_ITS_FRONT: &'static [Step] = &[
    AddAll(Even, 0, 123),
    Is(Byte(0, 18, 0)),
    // the last name of the left leaf is a front of this one, which is the key as it is
    Add(Longer, 122, 122),
    Is(Byte(0, 17, 123)),
    Is(Byte(1, 17, 1)),
    Is(Child(1, 1, 16, b'n')),
    FindAll(Even, 123),
];

const OF_ANOTHER: &'static [Step] = &[
    AddAll(Even, 0, 123),
    Is(Byte(0, 18, 0)),
    Add(Small, 246, 246),
    Add(Small, 245, 245),
    // 70 of 124 names are left, numbers 0 to 138
    Is(Byte(0, 17, 70)),
    Is(Byte(2, 17, 54)),
    Is(Byte(0, 0, 2)),
    Is(Byte(2, 8, 0)),
    Is(Byte(2, 0, 1)),
    Is(Child(1, 2, 3, b'4')),
    Is(Child(2, 1, 4, b'6')),
];

const AMONG_THE_FIRST: &'static [Step] = &[
    AddAll(Even, 0, 123),
    Is(Byte(0, 18, 0)),
    Add(Small, 1, 1),
    // the name that is added is one of the 70, and number 138 the right leaf's first
    Is(Byte(0, 17, 70)),
    Is(Byte(1, 17, 54)),
    Is(Child(1, 1, 4, b'8')),
];

const AMONG_THE_LAST: &'static [Step] = &[
    AddAll(Even, 0, 123),
    Is(Byte(0, 18, 0)),
    Add(Small, 201, 201),
    Is(Byte(0, 17, 70)),
    Is(Byte(1, 17, 54)),
    Is(Child(1, 1, 3, b'4')),
];

const AT_THE_BORDER: &'static [Step] = &[
    // 60 names of one slot, one of 17, and 46 of one slot
    AddAll(Even, 0, 60),
    Add(Behind, 121, 121),
    AddAll(Even, 100, 146),
    Is(Byte(0, 18, 0)),
    // 61 slots, and not 78
    Add(Small, 1, 1),
    Is(Byte(0, 17, 61)),
    Is(Byte(1, 17, 47)),
];

const ADDED: &'static [Step] = &[
    AddAll(Even, 0, 123),
    Is(Byte(0, 18, 0)),
    // 53 names of one slot and this one take 70
    Add(Behind, 105, 105),
    Is(Byte(0, 17, 54)),
    Is(Byte(1, 17, 70)),
];

/// What is looked at, and its steps.
static ROWS: [(&str, &[Step]); 7] = [
    ("past the end of the last leaf", AT_THE_END),
    ("behind a name that is its front", BEHIND_ITS_FRONT),
    ("past the end of another leaf", OF_ANOTHER),
    ("among the first", AMONG_THE_FIRST),
    ("among the last", AMONG_THE_LAST),
    ("a long name at the border", AT_THE_BORDER),
    ("a long name that is added", ADDED),
];

#[test]
fn rows_hold(rt: HostRuntime) {
    for (what, steps) in ROWS.iter() {
        assert!(rt; held(rt.alloc(), steps) == steps.len(), "{what}");
    }
}
