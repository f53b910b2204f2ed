//! Steps of tests, for tables: what is done to a file, and what is so then.

use crate::links::is_linked;
use crate::volume::{File, Told, blocks};
use jfs_bits::Rule;
use jfs_xtree::XtError;
use std::alloc::Global;

/// One step.
pub enum Step {
    /// So many blocks from this one on are taken.
    Add(u32, u8),
    /// So many blocks from this one on are refused, for the page where they would go.
    Refuse(u32, u8, u32),
    /// At places from the first up to the second, each so many blocks apart, so many are taken.
    AddAll(u32, u32, u32, u8),
    /// One block at each even place is taken, the last of so many first.
    AddDown(u32),
    /// At each fourth place, so many times, the three blocks behind it are taken, where one of them isn't taken once more.
    AddBetween(u32),
    /// A cut at this block tells so many pages, and so many blocks, and the tree then gives what the plain list gives.
    Cut(u64, u32, u64),
    /// The tree gives what the plain list gives, for each block before this one.
    Agree(u64),
    /// The tree took so many pages.
    Pages(u32),
    /// The root of a file without extents has 10 slots, and attributes stand behind them, as on volumes of other tools.
    Narrow,
    /// So it is still, and the root has no descriptor of its own.
    StaysNarrow,
}

/// How many of the steps hold, from a new file on, before the first that doesn't.
pub fn held(alloc: Global, steps: &[Step]) -> usize {
    match File::new(alloc) {
        Ok(mut file) => held_of(alloc, &mut file, steps),
        Err(_) => 0,
    }
}

fn held_of(alloc: Global, file: &mut File, steps: &[Step]) -> usize {
    let mut count: usize = 0;
    for step in steps {
        if !holds(alloc, file, step) {
            return count;
        }
        count = count.saturating_add(1);
    }
    count
}

fn holds(alloc: Global, file: &mut File, step: &Step) -> bool {
    match step {
        Step::Add(offset, len) => takes(alloc, file, *offset, *len),
        Step::Refuse(offset, len, page) => refuses(alloc, file, *offset, *len, *page),
        Step::AddAll(from, to, apart, len) => adds_all(alloc, file, *from, *to, *apart, *len),
        Step::AddDown(count) => adds_down(alloc, file, *count),
        Step::AddBetween(count) => adds_between(alloc, file, *count),
        Step::Cut(bound, pages, blocks) => cuts(alloc, file, *bound, *pages, *blocks),
        Step::Agree(end) => file.agrees(*end),
        Step::Pages(pages) => file.pages() == *pages,
        Step::Narrow => {
            narrow(&mut file.root);
            true
        }
        Step::StaysNarrow => is_narrow(&file.root),
    }
}

/// Gives a root 10 slots, and fills what stands behind them.
fn narrow(root: &mut [u8; 288]) {
    root[20] = 10;
    for at in 160..288 {
        root[at] = attribute(at);
    }
}

fn is_narrow(root: &[u8; 288]) -> bool {
    for at in 24..32 {
        if root[at] != 0 {
            return false;
        }
    }
    for at in 160..288 {
        if root[at] != attribute(at) {
            return false;
        }
    }
    root[20] == 10 && root[21] == 0
}

/// The byte of an attribute at a place of the inode.
fn attribute(at: usize) -> u8 {
    (at % 251) as u8
}

/// Whether so many blocks from `offset` on are taken, and all pages are linked then and name themselves.
fn takes(alloc: Global, file: &mut File, offset: u32, len: u8) -> bool {
    file.adds(alloc, blocks(offset, len)).is_ok() && is_linked(file)
}

/// Whether they are refused, for the page where they would go.
fn refuses(alloc: Global, file: &mut File, offset: u32, len: u8, page: u32) -> bool {
    let rule = Rule::Order;
    file.adds(alloc, blocks(offset, len)) == Err(XtError::Bad { page, rule })
}

fn adds_all(alloc: Global, file: &mut File, from: u32, to: u32, apart: u32, len: u8) -> bool {
    for k in from..to {
        if !takes(alloc, file, k.saturating_mul(apart), len) {
            return false;
        }
    }
    true
}

fn adds_down(alloc: Global, file: &mut File, count: u32) -> bool {
    for k in 0..count {
        if !takes(alloc, file, (count - k).saturating_mul(2), 1) {
            return false;
        }
    }
    true
}

fn adds_between(alloc: Global, file: &mut File, count: u32) -> bool {
    for k in 0..count {
        let offset = k.saturating_mul(4);
        if !takes(alloc, file, offset.saturating_add(1), 3)
            || takes(alloc, file, offset.saturating_add(3), 1)
        {
            return false;
        }
    }
    true
}

fn cuts(alloc: Global, file: &mut File, bound: u64, pages: u32, blocks: u64) -> bool {
    file.cuts(alloc, bound) == Ok(Told { pages, blocks }) && file.agrees(1600) && is_linked(file)
}
