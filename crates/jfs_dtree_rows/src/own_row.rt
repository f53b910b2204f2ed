//! Eight names fill a root; the ninth takes a page, and with the last of them it is free again.

use crate::facts::Fact::{Child, Pages, Parent, Root, Told};
use crate::steps::Step::{self, AddAll, FindAll, GiveBack, Is, RemoveAll};
use crate::steps::held;
use crate::units::Kind::{self, Digit};
use crate::units::name_of;
use crate::volume::{Dir, Told as Counts};
use jfs_bits::Pxd;
use jfs_ranges::{Edit, Tx};
use std::alloc::Global;
use std::test::*;

/// Whether the call that removes the name gives back page 0. The pages stay as they were.
pub fn gives_back(alloc: Global, dir: &mut Dir, kind: &Kind, number: u32) -> bool {
    let Ok(name) = name_of(alloc, kind, number) else {
        return false;
    };
    let mut tx = Tx::new(alloc);
    dir.remove_with(alloc, &name, &mut tx).is_ok() && is_back(&tx)
}

/// Whether a transaction is that page 0 isn't to be redone, and is free.
fn is_back(tx: &Tx) -> bool {
    let ends = match tx.get(0) {
        Some(Edit::NoRedo { page }) => *page == 0,
        _ => false,
    };
    let frees = match tx.get(1) {
        Some(Edit::Free(run)) => *run == (Pxd { len: 1, addr: 0 }),
        _ => false,
    };
    tx.len() == 2 && ends && frees
}

/// The root's byte 16 is its flag, 17 the number of its entries, and 18 the number of its free slots.
static NINE: [Step; 21] = [
    AddAll(Digit, 1, 9),
    Is(Root(16, 0x83)),
    Is(Root(17, 8)),
    Is(Root(18, 0)),
    Is(Told(Counts {
        left: 0,
        taken: 0,
        free: 0,
        ended: 0,
    })),
    FindAll(Digit, 10),
    AddAll(Digit, 9, 10),
    // the root's only child is page 0, and its key is empty
    Is(Root(16, 0x85)),
    Is(Root(17, 1)),
    Is(Root(18, 7)),
    Is(Child(0, 0, 0, 255)),
    Is(Told(Counts {
        left: 1,
        taken: 1,
        free: 0,
        ended: 0,
    })),
    FindAll(Digit, 10),
    RemoveAll(Digit, 1, 9),
    Is(Pages(1)),
    Is(Told(Counts {
        left: 1,
        taken: 1,
        free: 0,
        ended: 0,
    })),
    GiveBack(Digit, 9),
    Is(Root(16, 0x83)),
    Is(Root(17, 0)),
    Is(Root(18, 8)),
    Is(Parent(2)),
];

#[test]
fn nine_names(rt: HostRuntime) {
    assert!(rt; held(rt.alloc(), &NINE) == 21);
}
