//! Holes, entries that aren't recorded, and both, beside what the rule gives by hand.

use crate::ready::are_ready;
use jfs_bits::{Pxd, Xad};
use jfs_written::written;
use std::alloc::{AllocError, Global};
use std::test::*;

/// A recorded extent.
fn recorded(offset: u64, len: u32, addr: u64) -> Xad {
    Xad {
        flag: 0,
        offset,
        at: Pxd { len, addr },
    }
}

/// An extent that isn't recorded.
fn reserved(offset: u64, len: u32, addr: u64) -> Xad {
    Xad {
        flag: Xad::NOT_RECORDED,
        offset,
        at: Pxd { len, addr },
    }
}

/// Whether a range makes this of a list.
fn makes(alloc: Global, entries: &[Xad], range: &[Xad], list: &[Xad]) -> Result<bool, AllocError> {
    if !are_ready(entries) || !are_ready(range) {
        return Ok(false);
    }
    Ok(written(alloc, entries, range)?.as_slice() == list)
}

#[test]
fn in_a_hole(rt: HostRuntime) {
    // an empty file
    assert!(rt;
        makes(
            rt.alloc(),
            &[],
            &[recorded(5, 2, 100)],
            &[recorded(5, 2, 100)]
        )
        .expect(&rt, "memory")
    );
    // it continues its left neighbour
    assert!(rt;
        makes(
            rt.alloc(),
            &[recorded(0, 4, 10)],
            &[recorded(4, 2, 14)],
            &[recorded(0, 6, 10)]
        )
        .expect(&rt, "memory")
    );
    // elsewhere on the volume it doesn't
    assert!(rt;
        makes(
            rt.alloc(),
            &[recorded(0, 4, 10)],
            &[recorded(4, 2, 15)],
            &[recorded(0, 4, 10), recorded(4, 2, 15)]
        )
        .expect(&rt, "memory")
    );
    // a neighbour that isn't recorded stays alone
    assert!(rt;
        makes(
            rt.alloc(),
            &[reserved(0, 4, 10)],
            &[recorded(4, 2, 14)],
            &[reserved(0, 4, 10), recorded(4, 2, 14)]
        )
        .expect(&rt, "memory")
    );
    // and so does one on the right
    assert!(rt;
        makes(
            rt.alloc(),
            &[recorded(6, 2, 16)],
            &[recorded(4, 2, 14)],
            &[recorded(4, 2, 14), recorded(6, 2, 16)]
        )
        .expect(&rt, "memory")
    );
}

#[test]
fn in_entries(rt: HostRuntime) {
    // its other parts stay
    assert!(rt;
        makes(
            rt.alloc(),
            &[reserved(0, 10, 100)],
            &[recorded(3, 4, 103)],
            &[
                reserved(0, 3, 100),
                recorded(3, 4, 103),
                reserved(7, 3, 107)
            ]
        )
        .expect(&rt, "memory")
    );
    // two neighbours, under one extent, stay two
    assert!(rt;
        makes(
            rt.alloc(),
            &[reserved(0, 4, 10), reserved(4, 4, 14)],
            &[recorded(2, 4, 12)],
            &[
                reserved(0, 2, 10),
                recorded(2, 2, 12),
                recorded(4, 2, 14),
                reserved(6, 2, 16)
            ]
        )
        .expect(&rt, "memory")
    );
    // three extents in one entry, of which the last one ends with it
    assert!(rt;
        makes(
            rt.alloc(),
            &[reserved(0, 10, 100)],
            &[
                recorded(1, 1, 101),
                recorded(3, 1, 103),
                recorded(9, 1, 109)
            ],
            &[
                reserved(0, 1, 100),
                recorded(1, 1, 101),
                reserved(2, 1, 102),
                recorded(3, 1, 103),
                reserved(4, 5, 104),
                recorded(9, 1, 109)
            ]
        )
        .expect(&rt, "memory")
    );
}

#[test]
fn over_both(rt: HostRuntime) {
    // the hole's part continues what is written before it; the entry behind it stays an entry
    assert!(rt;
        makes(
            rt.alloc(),
            &[reserved(0, 4, 10), reserved(8, 4, 18)],
            &[recorded(0, 12, 10)],
            &[recorded(0, 8, 10), recorded(8, 4, 18)]
        )
        .expect(&rt, "memory")
    );
    // entries before and behind the range
    assert!(rt;
        makes(
            rt.alloc(),
            &[recorded(0, 2, 50), reserved(6, 2, 60), recorded(30, 2, 90)],
            &[recorded(4, 2, 70), recorded(6, 1, 60)],
            &[
                recorded(0, 2, 50),
                recorded(4, 2, 70),
                recorded(6, 1, 60),
                reserved(7, 1, 61),
                recorded(30, 2, 90)
            ]
        )
        .expect(&rt, "memory")
    );
    // nothing is written
    assert!(rt;
        makes(
            rt.alloc(),
            &[recorded(0, 2, 50)],
            &[],
            &[recorded(0, 2, 50)]
        )
        .expect(&rt, "memory")
    );
}
