//! Pages that break a rule, name themselves or can't be read, and trees of too many levels.

use crate::changes::Change::{Clear, Copy, Deepen, Empty, Lose, Put, PutRoot, Swap};
use crate::facts::Fact::Pages;
use crate::refusals::ROOT;
use crate::steps::Step::{
    self, Add, AddAll, AddFails, Break, BreakBy, Do, Fault, Find, Is, Refuse, Remove, RemoveFails,
    RootBreakBy,
};
use crate::steps::held;
use crate::units::Kind::{Alone, Long, Other};
use jfs_bits::Rule;
use jfs_dtree::DtError;
use std::test::*;

/// A byte of an inner page with two children, or of a leaf with seven names, and the rule that the page breaks where the byte is this one.
/// Of eight names, the root's child is page 2, whose children are the leaves 0 and 1.
const PAGES: &'static [Step] = &[
    AddAll(Long, 0, 8),
    BreakBy(2, 16, 0x83, Rule::Flag),
    BreakBy(2, 17, 124, Rule::Slots),
    BreakBy(2, 18, 124, Rule::Slots),
    BreakBy(2, 20, 127, Rule::Slots),
    BreakBy(2, 21, 125, Rule::Slots),
    // the table names the header's slot, and a slot twice
    BreakBy(2, 32, 0, Rule::Chain),
    BreakBy(2, 33, 5, Rule::Chain),
    // a key's chain runs in a circle, and is longer than the key
    BreakBy(2, 224, 6, Rule::Chain),
    BreakBy(2, 201, 226, Rule::Chain),
    BreakBy(2, 18, 104, Rule::Free),
    BreakBy(2, 19, 24, Rule::Free),
    // a child's run without blocks, and one past the end of the volume
    BreakBy(2, 160, 0, Rule::Range),
    BreakBy(2, 161, 1, Rule::Range),
    BreakBy(2, 165, 1, Rule::Range),
    BreakBy(0, 16, 0x85, Rule::Flag),
    BreakBy(0, 17, 124, Rule::Slots),
    BreakBy(0, 32, 0, Rule::Chain),
    BreakBy(0, 33, 5, Rule::Chain),
    BreakBy(0, 164, 5, Rule::Chain),
    BreakBy(0, 165, 255, Rule::Chain),
    BreakBy(0, 18, 3, Rule::Free),
    BreakBy(0, 19, 0, Rule::Free),
];

/// The same of a root with one child.
const ROOTS: &'static [Step] = &[
    AddAll(Long, 0, 8),
    RootBreakBy(16, 0x84, Rule::Flag),
    RootBreakBy(17, 9, Rule::Slots),
    RootBreakBy(18, 9, Rule::Slots),
    RootBreakBy(24, 9, Rule::Chain),
    RootBreakBy(18, 6, Rule::Free),
    RootBreakBy(32, 0, Rule::Range),
    RootBreakBy(37, 1, Rule::Range),
];

const ORDER: &'static [Step] = &[
    AddAll(Long, 0, 8),
    Do(Swap(2)),
    Break(2, Rule::Order),
    Do(Swap(2)),
    Do(Swap(0)),
    Break(0, Rule::Order),
    // the other leaf is as it was
    Find(Long, 7, Some(7)),
];

const OF_ANOTHER: &'static [Step] = &[
    AddAll(Long, 0, 56),
    // the first leaf holds the names of the last one, and page 2, which is full, has no place for a key among them
    Do(Copy(8, 0)),
    Find(Other, 3, None),
    AddFails(
        Other,
        3,
        DtError::Bad {
            page: 2,
            rule: Rule::Order,
        },
    ),
];

const CHILDLESS: &'static [Step] = &[
    AddAll(Long, 0, 8),
    Do(Empty(2)),
    Break(2, Rule::Deep),
    Do(Clear),
    Do(PutRoot(16, 0x85)),
    Break(ROOT, Rule::Deep),
];

const NAMELESS: &'static [Step] = &[
    AddAll(Long, 0, 8),
    Do(Empty(0)),
    Do(Put(0, 16, 0x82)),
    Break(0, Rule::Deep),
    // the other leaf is as it was
    Find(Long, 7, Some(7)),
];

const ITSELF: &'static [Step] = &[
    AddAll(Long, 0, 8),
    Do(Put(2, 164, 2)),
    Break(2, Rule::Deep),
    Find(Long, 7, Some(7)),
];

const NINTH: &'static [Step] = &[
    AddAll(Long, 0, 56),
    Do(Deepen(6)),
    Refuse(
        55,
        DtError::Bad {
            page: 8,
            rule: Rule::Deep,
        },
    ),
    Find(Long, 6, Some(6)),
];

const EIGHT_FULL: &'static [Step] = &[
    AddAll(Long, 0, 56),
    Do(Deepen(5)),
    Find(Long, 55, Some(55)),
    AddFails(Long, 56, DtError::TooDeep),
    AddFails(Long, 55, DtError::Exists),
];

const FITS: &'static [Step] = &[
    AddAll(Long, 0, 56),
    Do(Deepen(5)),
    // the leaf has four free slots, of which the name takes one
    AddFails(Alone, 0, DtError::TooDeep),
    // without one of its names it has 21, which any name fits into
    Remove(Long, 54, 54),
    Add(Alone, 0, 57),
    Find(Alone, 0, Some(57)),
    Find(Long, 55, Some(55)),
];

const SEVEN_FULL: &'static [Step] = &[
    AddAll(Long, 0, 56),
    Do(Deepen(4)),
    Is(Pages(9)),
    // one page beside each of the six below the root, and one for what the root had
    Add(Long, 56, 56),
    Is(Pages(16)),
    Find(Long, 55, Some(55)),
    Find(Long, 56, Some(56)),
];

const UNREAD: &'static [Step] = &[
    AddAll(Long, 0, 8),
    Do(Lose(2)),
    Fault(1),
    Do(Lose(0)),
    Fault(5),
    Find(Long, 7, Some(7)),
    // the leaf beside the one with the name isn't read where no page comes or goes
    Do(Lose(1)),
    Remove(Long, 3, 3),
    RemoveFails(Long, 3, DtError::Missing),
    Add(Long, 3, 9),
];

/// What is looked at, and its steps.
static ROWS: [(&str, &[Step]); 12] = [
    ("a page that breaks a rule", PAGES),
    ("a root that breaks a rule", ROOTS),
    ("names and keys that do not rise", ORDER),
    ("a full leaf with names of another", OF_ANOTHER),
    ("pages without children", CHILDLESS),
    ("a leaf without names", NAMELESS),
    ("a page that names itself", ITSELF),
    ("a ninth level", NINTH),
    ("eight full levels", EIGHT_FULL),
    ("a name that would fit", FITS),
    ("seven full levels", SEVEN_FULL),
    ("pages that cannot be read", UNREAD),
];

#[test]
fn rows_hold(rt: HostRuntime) {
    for (what, steps) in ROWS.iter() {
        assert!(rt; held(rt.alloc(), steps) == steps.len(), "{what}");
    }
}
