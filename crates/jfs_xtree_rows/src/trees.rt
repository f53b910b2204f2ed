//! Steps of tests on trees by hand, for tables: bytes that are put, and what is found or cut then.

ghost use Rattle.std.specs.Prelude.{◌≤◌};

use crate::shelf::{Shelf, entry, extent, head};
use jfs_bits::{Rule, Xad};
use jfs_disk::{Fault, Part};
use jfs_ranges::{Edit, Tx, ViewError};
use jfs_xtree::{XtError, cut_to, lookup, new_root};
use std::alloc::Global;

/// A root that stands for itself where it is at fault.
pub const ROOT: u32 = 4294967295;

/// One step. Page 0 stands for the root.
pub enum Step {
    /// The root has two extents: blocks 3 to 5 and 9 of the file.
    Leaf,
    /// The root's children are pages 1 and 2, with blocks 0 to 7 and from 8 on: blocks 3 to 5; blocks 8 and 40.
    Inner,
    /// The root has no extents.
    Clear,
    /// The header of a page.
    Head(u32, u8, u16, u16),
    /// The entry of a page: so many blocks of the file from `offset` on, at a block.
    Entry(u32, u8, u32, u16, u32),
    /// This page can't be read.
    Lose(u32),
    /// This extent is found for the block.
    Find(u64, u32, u16, u32),
    /// None is found for the block.
    Miss(u64),
    /// The block isn't looked for to the end, since the page breaks the rule.
    Bad(u64, u32, Rule),
    /// It isn't, by this fault.
    Fault(u64, u64),
    /// A tree with such a root is cut at a block.
    Cut(u64),
    /// It isn't, since the page breaks the rule, and root and transaction stay as they were.
    CutBad(u64, u32, Rule),
    /// It isn't, by this fault.
    CutFault(u64, u64),
}

/// A tree by hand.
#[derive(Drop)]
struct Tree {
    shelf: Shelf,
    root: [u8; 288],
}

/// How many of the steps hold, from pages of zeros on, before the first that doesn't.
pub fn held(alloc: Global, steps: &[Step]) -> usize {
    let mut tree = Tree {
        shelf: Shelf::new(),
        root: [0; 288],
    };
    let mut count: usize = 0;
    for step in steps {
        if !holds(alloc, &mut tree, step) {
            return count;
        }
        count = count.saturating_add(1);
    }
    count
}

fn holds(alloc: Global, tree: &mut Tree, step: &Step) -> bool {
    match step {
        Step::Find(offset, first, len, addr) => {
            finds(tree, *offset, Ok(Some(extent(*first, *len, *addr))))
        }
        Step::Miss(offset) => finds(tree, *offset, Ok(None)),
        Step::Bad(offset, page, rule) => finds(tree, *offset, Err(bad(*page, *rule))),
        Step::Fault(offset, count) => finds(tree, *offset, Err(fault(*count))),
        Step::Cut(bound) => cuts(alloc, &mut tree.shelf, *bound),
        Step::CutBad(bound, page, rule) => {
            cut_fails(alloc, &mut tree.shelf, *bound, bad(*page, *rule))
        }
        Step::CutFault(bound, count) => cut_fails(alloc, &mut tree.shelf, *bound, fault(*count)),
        _ => {
            put(tree, step);
            true
        }
    }
}

/// Puts the bytes of a step.
fn put(tree: &mut Tree, step: &Step) {
    match step {
        Step::Leaf => tree.root = leaf(),
        Step::Inner => {
            tree.root = inner();
            put_pages(&mut tree.shelf);
        }
        Step::Clear => clear(&mut tree.root),
        Step::Head(page, flag, next, slots) => put_head(tree, *page, *flag, *next, *slots),
        Step::Entry(page, i, offset, len, addr) => {
            put_entry(tree, *page, usize::from((*i).min(15)), *offset, *len, *addr);
        }
        Step::Lose(page) => tree.shelf.bad = *page,
        _ => {}
    }
}

fn clear(root: &mut [u8; 288]) {
    new_root(root);
}

fn leaf() -> [u8; 288] {
    let mut root = [0; 288];
    head(&mut root, 0x83, 4, 18);
    entry(&mut root, 0, 3, 3, 20);
    entry(&mut root, 1, 9, 1, 30);
    root
}

fn inner() -> [u8; 288] {
    let mut root = [0; 288];
    head(&mut root, 0x85, 4, 18);
    entry(&mut root, 0, 0, 1, 1);
    entry(&mut root, 1, 8, 1, 2);
    root
}

fn put_pages(shelf: &mut Shelf) {
    head(&mut shelf.one.0, 2, 3, 256);
    entry(&mut shelf.one.0, 0, 3, 3, 20);
    head(&mut shelf.two.0, 2, 4, 256);
    entry(&mut shelf.two.0, 0, 8, 1, 30);
    entry(&mut shelf.two.0, 1, 40, 1, 31);
}

fn put_head(tree: &mut Tree, page: u32, flag: u8, next: u16, slots: u16) {
    match page {
        0 => head(&mut tree.root, flag, next, slots),
        1 => head(&mut tree.shelf.one.0, flag, next, slots),
        _ => head(&mut tree.shelf.two.0, flag, next, slots),
    }
}

fn put_entry(tree: &mut Tree, page: u32, i: usize, offset: u32, len: u16, addr: u32)
    requires { i ≤ 15 }
{
    match page {
        0 => entry(&mut tree.root, i, offset, len, addr),
        1 => entry(&mut tree.shelf.one.0, i, offset, len, addr),
        _ => entry(&mut tree.shelf.two.0, i, offset, len, addr),
    }
}

fn bad(page: u32, rule: Rule) -> XtError {
    XtError::Bad { page, rule }
}

fn fault(count: u64) -> XtError {
    XtError::View(ViewError::Read(Fault {
        part: Part::Low,
        count,
    }))
}

/// Whether this is found for the block.
fn finds(tree: &mut Tree, offset: u64, expected: Result<Option<Xad>, XtError>) -> bool {
    lookup(&mut tree.shelf, &tree.root, offset) == expected
}

/// What a cut of a tree with the children 1 and 2 answers.
fn cut(
    alloc: Global,
    shelf: &mut Shelf,
    root: &mut [u8; 288],
    bound: u64,
    tx: &mut Tx,
) -> Result<(), XtError> {
    cut_to(alloc, shelf, root, bound, tx)
}

/// Whether a cut is done.
fn cuts(alloc: Global, shelf: &mut Shelf, bound: u64) -> bool {
    let mut root = inner();
    let mut tx = Tx::new(alloc);
    cut(alloc, shelf, &mut root, bound, &mut tx).is_ok()
}

/// Whether a cut is refused for this, and leaves root and transaction as they were.
fn cut_fails(alloc: Global, shelf: &mut Shelf, bound: u64, why: XtError) -> bool {
    let mut root = inner();
    let mut tx = Tx::new(alloc);
    if tx.push(Edit::NoRedo { page: 9 }).is_err() {
        return false;
    }
    let answer = cut(alloc, shelf, &mut root, bound, &mut tx);
    answer == Err(why) && root == inner() && tx.len() == 1
}
