//! How many slots a name takes.

use jfs_dtpage::dt_slots;
use std::test::*;

/// Units, and the slots in a leaf and in an inner page: 13 and 11 units in the first slot, 15 in each further one.
static ROWS: [(u32, u32, u32); 12] = [
    (0, 1, 1),
    (1, 1, 1),
    (11, 1, 1),
    (12, 1, 2),
    (13, 1, 2),
    (14, 2, 2),
    (26, 2, 2),
    (27, 2, 3),
    (28, 2, 3),
    (29, 3, 3),
    (253, 17, 18),
    (255, 18, 18),
];

/// How many of the rows hold, before the first that doesn't.
fn held() -> usize {
    let mut count: usize = 0;
    for (units, leaf, inner) in ROWS.iter() {
        if dt_slots(*units, true) != *leaf || dt_slots(*units, false) != *inner {
            return count;
        }
        count = count.saturating_add(1);
    }
    count
}

#[test]
fn slots_of_names(rt: HostRuntime) {
    assert!(rt; held() == 12);
}
