//! Steps of tests on trees of three levels by hand, for tables.

use crate::rack::{Blocks, Rack, cuts, is_listed, lists, refuses, refuses_cut, root};
use crate::shelf::head;
use jfs_bits::Rule;
use jfs_disk::{Fault, Part};
use jfs_ranges::ViewError;
use jfs_xtree::{XtError, new_root};
use std::alloc::{AllocError, Global};

/// A root that stands for itself where it is at fault.
pub const ROOT: u32 = 4294967295;

/// The second child of the root of three levels.
pub const SECOND: Blocks = (40, 1, 2);

/// One step.
pub enum Step {
    /// The pages are a tree of three levels.
    Three,
    /// Each page up to this one has the next one as its only child.
    Chain(u32),
    /// Each page up to this one names the next one ten times, and the root has page 1 alone.
    Ten(u32),
    /// The root has two children: page 1, and this one with its key.
    Root(Blocks),
    /// The root's header.
    RootHead(u8, u16, u16),
    /// The root has no extents.
    Clear,
    /// The header of a page.
    Head(u32, u8, u16, u16),
    /// A page is an inner page with these children.
    Inner(u32, Blocks, Blocks),
    /// A page is a leaf with these extents.
    Leaf(u32, Blocks, Blocks),
    /// This page can't be read.
    Lose(u32),
    /// No page was read yet.
    Recount,
    /// These are the extents.
    Lists(&'static [Blocks]),
    /// There is a list of extents.
    Listed,
    /// There is none, since the page breaks the rule.
    Refuse(u32, Rule),
    /// There is none, by the first fault.
    Fault,
    /// So many pages were read.
    Reads(u64),
    /// A copy of the tree is cut at a block of the file, and so many pages are read for it.
    Cut(u64, u64),
    /// It isn't, since the page breaks the rule, and so many pages are read.
    CutBad(u64, u32, Rule, u64),
}

/// How many of the steps hold, from a tree of three levels on, before the first that doesn't.
pub fn held(alloc: Global, steps: &[Step]) -> usize {
    match Rack::three_levels(alloc) {
        Ok(mut rack) => held_of(alloc, &mut rack, steps),
        Err(_) => 0,
    }
}

fn held_of(alloc: Global, rack: &mut Rack, steps: &[Step]) -> usize {
    let mut top = root(SECOND);
    let mut count: usize = 0;
    for step in steps {
        if !holds(alloc, rack, &mut top, step) {
            return count;
        }
        count = count.saturating_add(1);
    }
    count
}

fn holds(alloc: Global, rack: &mut Rack, top: &mut [u8; 288], step: &Step) -> bool {
    match step {
        Step::Three => becomes(rack, Rack::three_levels(alloc)),
        Step::Chain(last) => becomes(rack, Rack::chain(alloc, *last)),
        Step::Ten(last) => {
            *top = one_child();
            becomes(rack, Rack::ten(alloc, *last))
        }
        Step::Lists(all) => lists(alloc, rack, top, *all),
        Step::Listed => is_listed(alloc, rack, top),
        Step::Refuse(page, rule) => refuses(alloc, rack, top, bad(*page, *rule)),
        Step::Fault => refuses(alloc, rack, top, first_fault()),
        Step::Reads(reads) => rack.reads == *reads,
        Step::Cut(bound, reads) => {
            rack.reads = 0;
            cuts(alloc, rack, top, *bound) && rack.reads == *reads
        }
        Step::CutBad(bound, page, rule, reads) => {
            rack.reads = 0;
            refuses_cut(alloc, rack, top, *bound, bad(*page, *rule)) && rack.reads == *reads
        }
        _ => {
            put(rack, top, step);
            true
        }
    }
}

/// Puts the bytes of a step.
fn put(rack: &mut Rack, top: &mut [u8; 288], step: &Step) {
    match step {
        Step::Root(second) => *top = root(*second),
        Step::RootHead(flag, next, slots) => head(top, *flag, *next, *slots),
        Step::Clear => clear(top),
        Step::Head(n, flag, next, slots) => rack.head(*n, *flag, *next, *slots),
        Step::Inner(n, first, second) => rack.inner(*n, *first, *second),
        Step::Leaf(n, first, second) => rack.leaf(*n, *first, *second),
        Step::Lose(page) => rack.bad = *page,
        Step::Recount => rack.reads = 0,
        _ => {}
    }
}

/// Takes another rack's place, where there was memory for it.
fn becomes(rack: &mut Rack, other: Result<Rack, AllocError>) -> bool {
    match other {
        Ok(other) => {
            *rack = other;
            true
        }
        Err(_) => false,
    }
}

fn one_child() -> [u8; 288] {
    let mut top = root(SECOND);
    head(&mut top, 0x85, 3, 18);
    top
}

fn clear(root: &mut [u8; 288]) {
    new_root(root);
}

fn bad(page: u32, rule: Rule) -> XtError {
    XtError::Bad { page, rule }
}

fn first_fault() -> XtError {
    XtError::View(ViewError::Read(Fault {
        part: Part::Low,
        count: 1,
    }))
}
