//! The tree of an image beside those after fronts of a script's lines.

use crate::volume::{MADE, NOW};
use jfs_plain::{Line, Node, PlainTree};
use std::alloc::Global;

/// No file may be larger, on a volume whose log has 1,024 pages.
const LIMIT: u64 = 268_435_456;

/// So many inode numbers are looked at.
pub const MOST: u32 = 96;

/// Whether a directory has exactly the names of another, with their inodes.
fn same_names(alloc: Global, a: &Node, b: &Node) -> bool {
    let (Ok(names), Ok(others)) = (a.names.copy(alloc), b.names.copy(alloc)) else {
        return false;
    };
    if names.len() != others.len() {
        return false;
    }
    for entry in names.as_slice() {
        if b.names.find(&entry.name) != Some(entry.inode) {
            return false;
        }
    }
    true
}

fn same_node(alloc: Global, n: u32, a: &Node, b: &Node) -> bool {
    a.stat(n) == b.stat(n)
        && a.parent == b.parent
        && a.times.changed == b.times.changed
        && a.times.made == b.times.made
        && a.target.as_slice() == b.target.as_slice()
        && same_names(alloc, a, b)
}

/// Whether a file of so many bytes holds the same in two trees.
fn same_bytes(n: u32, size: u64, a: &PlainTree, b: &PlainTree) -> bool {
    for i in 0..size {
        if a.byte(n, i) != b.byte(n, i) {
            return false;
        }
    }
    true
}

/// Whether two trees are the same, but for the bytes of files whose inode isn't below `known`.
fn is_same(alloc: Global, a: &PlainTree, b: &PlainTree, known: u32) -> bool {
    for n in 0..MOST {
        let same = match (a.node(n), b.node(n)) {
            (Some(x), Some(y)) => {
                same_node(alloc, n, x, y)
                    && (n >= known || !x.is_file() || same_bytes(n, x.size, a, b))
            }
            (None, None) => true,
            _ => false,
        };
        if !same {
            return false;
        }
    }
    true
}

/// Does the call of a line; a new object has the lowest free inode.
fn step(tree: &mut PlainTree, line: &Line) {
    for fresh in 4..MOST {
        if tree.is_free(fresh) {
            tree.step(&line.request.call, fresh, NOW);
            return;
        }
    }
}

/// How many lines the shortest front of a script has, of so many or more, after which the tree is this one.
pub fn front_of(
    alloc: Global,
    lines: &[Line],
    least: usize,
    tree: &PlainTree,
    known: u32,
) -> Option<usize> {
    let mut plain = PlainTree::new(alloc, LIMIT, MADE).ok()?;
    for i in 0..=lines.len() {
        if i >= least && is_same(alloc, tree, &plain, known) {
            return Some(i);
        }
        if i < lines.len() {
            step(&mut plain, &lines[i]);
        }
    }
    None
}
