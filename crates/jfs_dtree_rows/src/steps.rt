//! Steps of tests, for tables: what is done to a directory, and what is so then.

use crate::calls::{
    add_all, add_down, add_fails, adds, find_all, finds, remove_all, remove_fails, removes,
};
use crate::changes::{Change, make_change};
use crate::facts::{Fact, is_so};
use crate::leading::{lead_all, lead_fails, leads};
use crate::own_row::gives_back;
use crate::refusals::{breaks, breaks_by, faults, refuses, root_breaks_by};
use crate::units::Kind;
use crate::volume::Dir;
use jfs_bits::Rule;
use jfs_dtree::DtError;
use std::alloc::Global;

/// One step. A name is told by how its number is spelled, and by the number.
pub enum Step {
    /// The name is added for this inode.
    Add(Kind, u32, u32),
    /// The name isn't added for this reason, and root, blocks and transaction stay as they were.
    AddFails(Kind, u32, DtError),
    /// The name is removed, and was this inode's.
    Remove(Kind, u32, u32),
    /// The name isn't removed for this reason, and root and transaction stay as they were.
    RemoveFails(Kind, u32, DtError),
    /// The name is led to this inode, and was the other one's.
    Lead(Kind, u32, u32, u32),
    /// The names with numbers from the first up to the second, each its number's, are led to the inodes from 1,000 on.
    LeadAll(Kind, u32, u32),
    /// The name isn't led to another inode for this reason, and root and transaction stay as they were.
    LeadFails(Kind, u32, DtError),
    /// This inode is found for the name, or none.
    Find(Kind, u32, Option<u32>),
    /// The names with numbers from the first up to the second are added, each for its number, the lowest first.
    AddAll(Kind, u32, u32),
    /// So many names with numbers below the first one are added, the highest first.
    AddDown(Kind, u32, u32),
    /// The names with numbers from the first up to the second are removed, the lowest first.
    RemoveAll(Kind, u32, u32),
    /// The names with numbers below this one are found or not, and all are listed, as the plain list has them.
    FindAll(Kind, u32),
    /// Each call on the long name refuses it for this reason.
    Refuse(u32, DtError),
    /// Each call on long name 3, and the list of all names, is refused since this page breaks a rule.
    Break(u32, Rule),
    /// It is so where a byte of a page is another; with the byte that was there the name is found.
    BreakBy(u8, u16, u8, Rule),
    /// The same of a byte of the root.
    RootBreakBy(u8, u8, Rule),
    /// Looking for a name, adding another, removing the first and leading it to another inode fail, by this fault and the three behind it.
    Fault(u64),
    /// With the name, its page is given back: the transaction tells nothing else.
    GiveBack(Kind, u32),
    /// Bytes are changed by hand.
    Do(Change),
    /// This is so.
    Is(Fact),
}

/// How many of the steps hold, from a new directory on, before the first that doesn't.
pub fn held(alloc: Global, steps: &[Step]) -> usize {
    match Dir::new(alloc) {
        Ok(mut dir) => held_of(alloc, &mut dir, steps),
        Err(_) => 0,
    }
}

/// The same from this directory on.
pub fn held_of(alloc: Global, dir: &mut Dir, steps: &[Step]) -> usize {
    let mut count: usize = 0;
    for step in steps {
        if !holds(alloc, dir, step) {
            return count;
        }
        count = count.saturating_add(1);
    }
    count
}

fn holds(alloc: Global, dir: &mut Dir, step: &Step) -> bool {
    match step {
        Step::Add(kind, number, inode) => adds(alloc, dir, kind, *number, *inode),
        Step::AddFails(kind, number, why) => add_fails(alloc, dir, kind, *number, *why),
        Step::Remove(kind, number, inode) => removes(alloc, dir, kind, *number, *inode),
        Step::RemoveFails(kind, number, why) => remove_fails(alloc, dir, kind, *number, *why),
        Step::Lead(kind, number, inode, old) => leads(alloc, dir, kind, *number, *inode, *old),
        Step::LeadAll(kind, from, to) => lead_all(alloc, dir, kind, *from, *to),
        Step::LeadFails(kind, number, why) => lead_fails(alloc, dir, kind, *number, *why),
        Step::Find(kind, number, found) => finds(alloc, dir, kind, *number, *found),
        Step::AddAll(kind, from, to) => add_all(alloc, dir, kind, *from, *to),
        Step::AddDown(kind, end, count) => add_down(alloc, dir, kind, *end, *count),
        Step::RemoveAll(kind, from, to) => remove_all(alloc, dir, kind, *from, *to),
        Step::FindAll(kind, end) => find_all(alloc, dir, kind, *end),
        Step::Refuse(number, why) => refuses(alloc, dir, *number, *why),
        Step::Break(page, rule) => breaks(alloc, dir, *page, *rule),
        Step::BreakBy(page, at, byte, rule) => breaks_by(alloc, dir, *page, *at, *byte, *rule),
        Step::RootBreakBy(at, byte, rule) => root_breaks_by(alloc, dir, *at, *byte, *rule),
        Step::Fault(first) => faults(alloc, dir, *first),
        Step::GiveBack(kind, number) => gives_back(alloc, dir, kind, *number),
        Step::Do(done) => {
            make_change(dir, done);
            true
        }
        Step::Is(fact) => is_so(alloc, dir, fact),
    }
}
