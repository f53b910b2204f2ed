//! Logs with one rule broken, or two, and the rule that is told.

use crate::logs::Log::{Fresh, OneChange, Zeros};
use crate::logs::{Log, read_changed};
use jfs_bits::Rule;
use jfs_logpages::{RingError, RingText};
use std::alloc::Global;

// A log whose bytes are changed, each by its page of the log, its offset and its value; and the rule that it then breaks, at that address.
type Row = (Log, &'static [(u32, usize, u8)], u32, Rule);

#[rattlefmt::skip]
static ROWS: [Row; 38] = [
    // One byte of the last page is changed, behind one change of mode. On that page the SYNCPT begins at 8; the REDOPAGE's line at 44, its place at 172 and its
    // descriptor at 176; the COMMIT at 212.
    (OneChange, &[(1023, 221, 0x20)], 4_190_456, Rule::BadType),
    (OneChange, &[(1023, 222, 1)], 4_190_456, Rule::Length),
    (OneChange, &[(1023, 186, 0x85)], 4_190_420, Rule::Range),
    (OneChange, &[(1023, 202, 4)], 4_190_420, Rule::Lines),
    (OneChange, &[(1023, 174, 2)], 4_190_420, Rule::Range),
    (OneChange, &[(1023, 174, 0)], 4_190_420, Rule::Range),
    (OneChange, &[(1023, 172, 0x20)], 4_190_420, Rule::Range),
    (OneChange, &[(1023, 208, 15)], 4_190_420, Rule::Place),
    (OneChange, &[(1023, 209, 12)], 4_190_420, Rule::Place),
    (OneChange, &[(1023, 200, 0x10)], 4_190_420, Rule::Kind),
    (OneChange, &[(1023, 201, 1)], 4_190_420, Rule::Kind),
    (OneChange, &[(1023, 204, 2)], 4_190_420, Rule::Kind),
    (OneChange, &[(1023, 216, 0xd5)], 4_190_420, Rule::Chain),
    (OneChange, &[(1023, 212, 2)], 4_190_420, Rule::Chain),
    (OneChange, &[(1023, 180, 1)], 4_190_252, Rule::Chain),
    (OneChange, &[(1023, 17, 0x20)], 4_190_252, Rule::BadType),
    (OneChange, &[(1023, 24, 1)], 4_190_252, Rule::Sync),
    // Two bytes are changed. Records are read from the end backwards, and the rules of each are looked at in their order; the superblock comes before all.
    (OneChange, &[(1023, 221, 0x20), (1023, 222, 1)], 4_190_456, Rule::BadType),
    (OneChange, &[(1023, 222, 1), (1023, 202, 4)], 4_190_456, Rule::Length),
    (OneChange, &[(1023, 202, 4), (1023, 174, 2)], 4_190_420, Rule::Lines),
    (OneChange, &[(1023, 174, 2), (1023, 208, 15)], 4_190_420, Rule::Range),
    (OneChange, &[(1023, 208, 15), (1023, 200, 0x10)], 4_190_420, Rule::Place),
    (OneChange, &[(1023, 200, 0x10), (1023, 216, 0xd5)], 4_190_420, Rule::Kind),
    (OneChange, &[(1023, 216, 0xd5), (1023, 17, 0x20)], 4_190_420, Rule::Chain),
    (OneChange, &[(1023, 180, 1), (1023, 24, 1)], 4_190_252, Rule::Chain),
    (OneChange, &[(1, 0, 0), (1, 52, 0x6f)], 4096, Rule::Super),
    (OneChange, &[(1, 12, 1), (1023, 221, 0x20)], 4096, Rule::Super),
    // The SYNCPT gives the COMMIT's end, which stands behind it: that is no place where redo may begin.
    (OneChange, &[(1023, 24, 0xf8), (1023, 25, 0xf0), (1023, 26, 0x3f)], 4_190_252, Rule::Sync),
    // Nowhere half a ring stands, and the last record is none: the ring is looked at first.
    (OneChange, &[(302, 0, 0), (702, 0, 0), (1023, 221, 0x20)], 0, Rule::Ring),
    // One byte of a fresh log is changed. The last page of the ring has the SYNCPT at 8 to 43; without it half a ring of pages still stands, with no record.
    (Fresh, &[(1, 0, 0)], 4096, Rule::Super),
    (Fresh, &[(1, 4, 2)], 4096, Rule::Super),
    (Fresh, &[(1, 12, 1)], 4096, Rule::Super),
    (Fresh, &[(1023, 0, 0)], 0, Rule::Sync),
    (Fresh, &[(1023, 17, 0x20)], 4_190_252, Rule::BadType),
    (Fresh, &[(1023, 18, 1)], 4_190_252, Rule::Length),
    (Fresh, &[(1023, 24, 1)], 4_190_252, Rule::Sync),
    // The numbers 300 and 700 don't stand, so that nowhere 511 pages in a row do.
    (Fresh, &[(302, 0, 0), (702, 0, 0)], 0, Rule::Ring),
    // A log of zeros has no superblock.
    (Zeros, &[], 4096, Rule::Super),
];

/// Whether the log breaks the row's rule.
fn breaks(alloc: Global, row: &Row) -> bool {
    match read_changed(alloc, row.0, row.1) {
        Err(RingError::BadLog { address, rule }) => address == row.2 && rule == row.3,
        _ => false,
    }
}

#[test]
fn the_first_broken_rule_is_told(rt: HostRuntime) {
    for i in 0..ROWS.len() {
        assert!(rt; breaks(rt.alloc(), &ROWS[i]), "row {i}");
    }
}

// The label is looked at before the ring.
#[test]
fn a_foreign_label_is_told(rt: HostRuntime) {
    let read = read_changed(rt.alloc(), Fresh, &[(1, 52, 0x6f), (1023, 0, 0)]);
    assert!(rt; is_foreign(&read));
}

/// Whether a log isn't read for its label.
fn is_foreign(read: &Result<RingText, RingError>) -> bool {
    match read {
        Err(RingError::ForeignLog { label }) => label == b"ofsd profile 1\0\0",
        _ => false,
    }
}

// The SYNCPT ends at 4190252, behind it the REDOPAGE has 168 bytes and the COMMIT 36.
#[test]
fn a_change_of_mode_is_three_records(rt: HostRuntime) {
    match read_changed(rt.alloc(), OneChange, &[]) {
        Ok(read) => assert!(rt; is_one_change(&read)),
        Err(_) => panic!(rt; "not read"),
    }
}

/// Whether these are a SYNCPT and one change of mode.
fn is_one_change(read: &RingText) -> bool {
    let before = 510 * 4080;
    read.end() == 4_190_456
        && read.ends() == [before + 240, before + 204, before + 36].as_slice()
        && read.bytes().len() == 2_081_040
        && read.address(2_081_004) == 4_190_420
        && read.address(2_080_836) == 4_190_252
}
