//! Names led to other inodes, and directories that are too deep for a name.

ghost use Rattle.std.specs.Prelude.{◌≤◌, length};

use crate::changes::Change::{Deepen, Empty, Lose};
use crate::facts::Fact::{Deep, DeepFault, Lists, Pages, Parent};
use crate::steps::Step::{
    self, Add, AddAll, AddFails, Do, Find, FindAll, Is, Lead, LeadAll, LeadFails, Remove,
};
use crate::steps::held;
use crate::units::Kind::{Alone, Digit, Long, Mixed};
use crate::units::{Kind, name_of};
use crate::volume::{Dir, one_edit};
use jfs_dtree::{DtError, is_deep, replace};
use jfs_name::Name;
use jfs_ranges::{Edit, Tx, ViewError};
use std::alloc::Global;
use std::test::*;

impl Dir {
    /// Leads a name to an inode in the tree, and where that is done, in the plain list; whether it was `old`, and the transaction tells one slot of a page, or nothing.
    fn leads(&mut self, alloc: Global, name: &Name, inode: u32, old: u32) -> bool
        requires { length name.now ≤ 255 }
    {
        let mut tx = Tx::new(alloc);
        let answer = replace(
            alloc,
            &mut self.volume,
            &mut self.root,
            name,
            inode,
            &mut tx,
        );
        if answer != Ok(old) {
            return false;
        }
        self.applies(&tx);
        for entry in self.plain.iter_mut() {
            if entry.name.as_slice() == name.as_slice() {
                entry.inode = inode;
            }
        }
        is_slot(&tx)
    }

    /// Whether a name isn't led to another inode for this reason, and root and transaction stay as they were.
    fn keeps_inode(&mut self, alloc: Global, name: &Name, why: DtError) -> bool
        requires { length name.now ≤ 255 }
    {
        let root = self.root;
        let mut tx = one_edit(alloc);
        let answer = replace(alloc, &mut self.volume, &mut self.root, name, 9, &mut tx);
        answer == Err(why) && self.root == root && tx.len() == 1
    }
}

/// Whether a transaction tells one slot of a page, or nothing.
fn is_slot(tx: &Tx) -> bool {
    for edit in tx.as_slice() {
        match edit {
            Edit::Lines { bytes, .. } => {
                if bytes.len() != 32 {
                    return false;
                }
            }
            Edit::NoRedo { .. } | Edit::Alloc(_) | Edit::Free(_) => return false,
        }
    }
    tx.len() <= 1
}

/// Whether the name is led to the inode, and was the old one's.
pub fn leads(alloc: Global, dir: &mut Dir, kind: &Kind, number: u32, inode: u32, old: u32) -> bool {
    match name_of(alloc, kind, number) {
        Ok(name) => dir.leads(alloc, &name, inode, old),
        Err(_) => false,
    }
}

/// Whether the name isn't led to another inode, for this reason.
pub fn lead_fails(alloc: Global, dir: &mut Dir, kind: &Kind, number: u32, why: DtError) -> bool {
    match name_of(alloc, kind, number) {
        Ok(name) => dir.keeps_inode(alloc, &name, why),
        Err(_) => false,
    }
}

/// Whether the names with numbers from `from` up to `to`, each its number's, are led to the inodes from 1,000 on.
pub fn lead_all(alloc: Global, dir: &mut Dir, kind: &Kind, from: u32, to: u32) -> bool {
    for number in from..to {
        if !leads(
            alloc,
            dir,
            kind,
            number,
            number.saturating_add(1000),
            number,
        ) {
            return false;
        }
    }
    true
}

/// Whether a directory answers so where it is asked whether it is too deep for a name.
pub fn answers_deep(
    alloc: Global,
    dir: &mut Dir,
    kind: &Kind,
    number: u32,
    answer: Result<bool, ViewError>,
) -> bool {
    match name_of(alloc, kind, number) {
        Ok(name) => is_deep(&mut dir.volume, &dir.root, &name) == answer,
        Err(_) => false,
    }
}

static IN_THE_ROOT: [Step; 13] = [
    LeadFails(Digit, 1, DtError::Missing),
    AddAll(Digit, 1, 4),
    Lead(Digit, 2, 40, 2),
    FindAll(Digit, 9),
    Lead(Digit, 2, 4294967295, 40),
    Lead(Digit, 1, 41, 1),
    Lead(Digit, 3, 0, 3),
    // to the inode that it has
    Lead(Digit, 3, 0, 0),
    FindAll(Digit, 9),
    LeadFails(Digit, 4, DtError::Missing),
    LeadFails(Alone, 0, DtError::Missing),
    Is(Parent(2)),
    Is(Pages(0)),
];

#[test]
fn names_in_the_root(rt: HostRuntime) {
    assert!(rt; held(rt.alloc(), &IN_THE_ROOT) == 13);
}

static BELOW: [Step; 7] = [
    // two levels of inner pages below the root, of which each name has 18 slots
    AddAll(Long, 0, 57),
    LeadAll(Long, 0, 57),
    FindAll(Long, 60),
    LeadFails(Long, 57, DtError::Missing),
    LeadFails(Alone, 0, DtError::Missing),
    Is(Parent(2)),
    Is(Pages(12)),
];

#[test]
fn names_below_the_root(rt: HostRuntime) {
    assert!(rt; held(rt.alloc(), &BELOW) == 7);
}

static LENGTHS: [Step; 3] = [
    AddAll(Mixed, 0, 510),
    LeadAll(Mixed, 0, 510),
    FindAll(Mixed, 510),
];

#[test]
fn names_of_1_to_255_units(rt: HostRuntime) {
    assert!(rt; held(rt.alloc(), &LENGTHS) == 3);
}

static DAMAGED: [Step; 9] = [
    AddAll(Long, 0, 8),
    // the leaf of the names 0 to 6 breaks a rule, and the other one's way doesn't
    Do(Empty(0)),
    Is(Lists(false)),
    Find(Long, 7, Some(7)),
    Find(Long, 8, None),
    Lead(Long, 7, 90, 7),
    Find(Long, 7, Some(90)),
    LeadFails(Long, 8, DtError::Missing),
    Is(Lists(false)),
];

#[test]
fn names_whose_way_is_sound(rt: HostRuntime) {
    assert!(rt; held(rt.alloc(), &DAMAGED) == 9);
}

static TOO_DEEP: [Step; 15] = [
    Is(Deep(Long, 0, false)),
    AddAll(Long, 0, 56),
    Is(Deep(Long, 56, false)),
    Do(Deepen(4)),
    Is(Deep(Long, 56, false)),
    Do(Deepen(5)),
    Is(Deep(Long, 56, true)),
    AddFails(Long, 56, DtError::TooDeep),
    // the way of the first names is short
    Is(Deep(Long, 6, false)),
    Is(Deep(Alone, 0, true)),
    AddFails(Alone, 0, DtError::TooDeep),
    // without one of its names the leaf has room for any
    Remove(Long, 54, 54),
    Is(Deep(Alone, 0, false)),
    Add(Alone, 0, 57),
    Find(Alone, 0, Some(57)),
];

#[test]
fn directories_that_are_too_deep(rt: HostRuntime) {
    assert!(rt; held(rt.alloc(), &TOO_DEEP) == 15);
}

static NINE_LEVELS: [Step; 5] = [
    AddAll(Long, 0, 56),
    // a way that breaks a rule is not too deep
    Do(Deepen(6)),
    Is(Deep(Long, 55, false)),
    Do(Lose(2)),
    Is(DeepFault(Long, 55, 1)),
];

#[test]
fn ways_that_end_nowhere(rt: HostRuntime) {
    assert!(rt; held(rt.alloc(), &NINE_LEVELS) == 5);
}
