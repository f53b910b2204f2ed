//! Pages by their names.

use crate::leaves::{add, add_eight, take_eight};
use jfs_bits::{Pxd, Rule};
use jfs_dtpage::{BadDt, DtForm, PageFull, dt_check, dt_new};
use std::test::*;

const NOWHERE: Pxd = Pxd { len: 0, addr: 0 };

/// Whether eight names fill a root, without them it is empty, and it is so.
fn fills_and_empties(root: &mut [u8; 288]) -> bool {
    dt_new(root, DtForm::Root, true, NOWHERE);
    add_eight(root)
        && add(root, DtForm::Root, &[0x66, 57], 4) == Err(PageFull { free: 0, need: 1 })
        && add(root, DtForm::Root, &[0x66, 49], 4) == Ok(false)
        && take_eight(root)
}

/// Whether a root has no entries, and eight free slots.
fn is_empty(root: &[u8; 288]) -> bool {
    match dt_check(root, DtForm::Root) {
        Ok(head) => head.nextindex == 0 && head.freecnt == 8,
        Err(_) => false,
    }
}

#[test]
fn eight_names_fill_a_root(rt: HostRuntime) {
    let mut root = [0u8; 288];
    assert!(rt; fills_and_empties(&mut root));
    assert!(rt; is_empty(&root));
}

/// Whether a root breaks this rule.
fn breaks(root: &[u8; 288], rule: Rule) -> bool {
    match dt_check(root, DtForm::Root) {
        Ok(_) => false,
        Err(bad) => bad == BadDt { rule },
    }
}

/// Whether a root is made of `ab`, and of `a` where that is wanted.
fn makes(root: &mut [u8; 288], both: bool) -> bool {
    dt_new(root, DtForm::Root, true, NOWHERE);
    add(root, DtForm::Root, &[0x61, 0x62], 4) == Ok(true)
        && (!both || add(root, DtForm::Root, &[0x61], 5) == Ok(true))
}

/// The rule that a root of `ab` breaks where one byte of it is another.
static BROKEN: [(usize, u8, Rule); 10] = [
    (16, 0x87, Rule::Flag),
    (17, 9, Rule::Slots),
    (18, 9, Rule::Slots),
    (24, 0, Rule::Chain),
    (24, 9, Rule::Chain),
    (36, 2, Rule::Chain),
    (37, 14, Rule::Chain),
    (18, 6, Rule::Free),
    (19, 1, Rule::Free),
    (64, 2, Rule::Free),
];

/// Whether a root breaks this rule with another byte at a place.
fn breaks_by(root: &[u8; 288], place: usize, byte: u8, rule: Rule) -> bool {
    let mut bytes = *root;
    bytes[place % 288] = byte;
    breaks(&bytes, rule)
}

/// How many of the bytes break their rules, before the first that doesn't.
fn broken(root: &[u8; 288]) -> usize {
    let mut count: usize = 0;
    for (place, byte, rule) in BROKEN.iter() {
        if !breaks_by(root, *place, *byte, *rule) {
            return count;
        }
        count = count.saturating_add(1);
    }
    count
}

#[test]
fn bytes_that_break_a_rule(rt: HostRuntime) {
    let mut root = [0u8; 288];
    assert!(rt; makes(&mut root, false));
    assert!(rt; broken(&root) == 10);
}

#[test]
fn names_that_do_not_rise(rt: HostRuntime) {
    let mut root = [0u8; 288];
    assert!(rt; makes(&mut root, true));
    let first = root[24];
    root[24] = root[25];
    root[25] = first;
    assert!(rt; breaks(&root, Rule::Order));
}
