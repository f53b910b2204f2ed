//! All names of trees by hand: each page is looked at, and those at fault are named.

use crate::changes::Change::{Clear, DeepenAlone, Empty, Lose, Put};
use crate::facts::Fact::{ListFails, ListFault, Lists, Reads};
use crate::steps::Step::{self, AddAll, Do, Is};
use crate::steps::held;
use crate::units::Kind::Long;
use jfs_bits::Rule;
use jfs_dtree::DtError;
use std::test::*;

const IN_ORDER: &'static [Step] = &[
    Is(Lists(true)),
    AddAll(Long, 0, 60),
    Is(Lists(true)),
    Do(Clear),
    Is(Lists(false)),
    Is(Reads(0)),
];

const READS: &'static [Step] = &[
    // each of the nine pages is read once
    AddAll(Long, 0, 56),
    Is(Lists(true)),
    Is(Reads(9)),
];

const FIRST: DtError = DtError::Bad {
    page: 0,
    rule: Rule::Order,
};

// Pages whose eight children are one, at three levels, five and eight: each page is read once, and the leaf once more, whose first name comes before the second key.
const EIGHT_TIMES: &'static [Step] = &[
    AddAll(Long, 0, 56),
    Do(DeepenAlone(0)),
    Is(ListFails(FIRST)),
    Is(Reads(3)),
    Do(DeepenAlone(2)),
    Is(ListFails(FIRST)),
    Is(Reads(5)),
    Do(DeepenAlone(5)),
    Is(ListFails(FIRST)),
    Is(Reads(8)),
];

const TWICE: &'static [Step] = &[
    AddAll(Long, 0, 8),
    // the second child is the first one: its first name comes before its key
    Do(Put(2, 196, 0)),
    Is(ListFails(FIRST)),
];

const ITSELF: &'static [Step] = &[
    AddAll(Long, 0, 8),
    Do(Put(2, 196, 2)),
    Is(ListFails(DtError::Bad {
        page: 2,
        rule: Rule::Deep,
    })),
];

const NAMELESS: &'static [Step] = &[
    AddAll(Long, 0, 8),
    Do(Empty(1)),
    Is(ListFails(DtError::Bad {
        page: 1,
        rule: Rule::Deep,
    })),
    Do(Put(1, 16, 0x82)),
    Is(ListFails(DtError::Bad {
        page: 1,
        rule: Rule::Deep,
    })),
];

const UNREAD: &'static [Step] = &[
    AddAll(Long, 0, 8),
    Do(Lose(2)),
    Is(ListFault(1)),
    Do(Lose(0)),
    Is(ListFault(2)),
    Do(Lose(1)),
    Is(ListFault(3)),
    Do(Lose(3)),
    Is(Lists(true)),
];

/// What is looked at, and its steps.
static ROWS: [(&str, &[Step]); 7] = [
    ("names in order", IN_ORDER),
    ("the reads of a list", READS),
    ("pages that name one child eight times", EIGHT_TIMES),
    ("a page named twice", TWICE),
    ("a page that names itself", ITSELF),
    ("a leaf without names", NAMELESS),
    ("each page that cannot be read", UNREAD),
];

#[test]
fn rows_hold(rt: HostRuntime) {
    for (what, steps) in ROWS.iter() {
        assert!(rt; held(rt.alloc(), steps) == steps.len(), "{what}");
    }
}
