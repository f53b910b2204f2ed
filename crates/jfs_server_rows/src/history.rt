//! Histories beside a plain file tree.

use crate::volume::{MADE, NOW};
use jfs_plain::{Call, Entry, Node, PlainTree, Refusal, Reply};
use std::alloc::Global;

/// No file may be larger, on a volume whose log has 1,024 pages.
const LIMIT: u64 = 268_435_456;

/// So many inode numbers are looked at.
const MOST: u32 = 640;

/// The tree of the new volume.
fn new_tree(alloc: Global) -> Option<PlainTree> {
    PlainTree::new(alloc, LIMIT, MADE).ok()
}

/// A call on a tree. A new object gets the lowest number that is free, as on a volume.
fn step(tree: &mut PlainTree, call: &Call) -> Option<Reply> {
    for fresh in 4..MOST {
        if tree.is_free(fresh) {
            return Some(tree.step(call, fresh, NOW));
        }
    }
    None
}

/// Whether a call was refused for a fault of the disk, and so did nothing.
pub fn is_for_fault(reply: &Reply) -> bool {
    matches!(
        reply,
        Reply::Refused(Refusal::ReadOnly { .. } | Refusal::IoFault { .. })
    )
}

fn same_reply(alloc: Global, a: &Reply, b: &Reply) -> Option<bool> {
    let a = format!(in alloc; "{a:?}").ok()?;
    let b = format!(in alloc; "{b:?}").ok()?;
    Some(a.as_str() == b.as_str())
}

/// Whether a plain file tree gives the replies of a history, one after the other, but for those that are for a fault.
pub fn is_legal(alloc: Global, history: &[Entry]) -> Option<bool> {
    let mut tree = new_tree(alloc)?;
    for entry in history {
        if !is_for_fault(&entry.reply) {
            let reply = step(&mut tree, &entry.call)?;
            if !same_reply(alloc, &reply, &entry.reply)? {
                return Some(false);
            }
        }
    }
    Some(true)
}

/// Whether a client's entries are its so many lines, from the first to the last of them.
fn has_lines(history: &[Entry], client: u32, lines: u32) -> bool {
    let mut next = 1u32;
    for entry in history {
        if entry.client == client {
            if entry.line != next {
                return false;
            }
            next = next.wrapping_add(1);
        }
    }
    next == lines.wrapping_add(1)
}

/// Whether that is so of so many clients, and there are no entries of others.
pub fn have_lines(history: &[Entry], clients: u32, lines: u32) -> bool {
    for i in 0..clients {
        if !has_lines(history, i.wrapping_add(1), lines) {
            return false;
        }
    }
    history
        .iter()
        .all(|entry| entry.client >= 1 && entry.client <= clients)
}

fn same_names(alloc: Global, a: &Node, b: &Node) -> bool {
    let (Ok(names), Ok(others)) = (a.names.copy(alloc), b.names.copy(alloc)) else {
        return false;
    };
    names.len() == others.len()
        && names
            .as_slice()
            .iter()
            .all(|entry| b.names.find(&entry.name) == Some(entry.inode))
}

fn same_bytes(n: u32, size: u64, a: &PlainTree, b: &PlainTree) -> bool {
    for i in 0..size {
        if a.byte(n, i) != b.byte(n, i) {
            return false;
        }
    }
    true
}

/// Whether two trees have the same objects, and where the bytes of files are known, those too.
fn is_same(alloc: Global, a: &PlainTree, b: &PlainTree, bytes_are_known: bool) -> bool {
    for n in 0..MOST {
        let same = match (a.node(n), b.node(n)) {
            (Some(x), Some(y)) => {
                x.stat(n) == y.stat(n)
                    && x.parent == y.parent
                    && same_names(alloc, x, y)
                    && (!bytes_are_known || !x.is_file() || same_bytes(n, x.size, a, b))
            }
            (None, None) => true,
            _ => false,
        };
        if !same {
            return false;
        }
    }
    true
}

/// How many entries the shortest front of a history has, of so many or more, after which the tree is this one. Those that were refused for a fault did nothing. The bytes of files are known where `sync` was done behind
/// all that changed them.
pub fn front_of(
    alloc: Global,
    history: &[Entry],
    least: u64,
    tree: &PlainTree,
    bytes_are_known: bool,
) -> Option<u64> {
    let mut plain = new_tree(alloc)?;
    let mut count = 0u64;
    for entry in history {
        if count >= least && is_same(alloc, tree, &plain, bytes_are_known) {
            return Some(count);
        }
        if !is_for_fault(&entry.reply) {
            step(&mut plain, &entry.call)?;
        }
        count = count.wrapping_add(1);
    }
    if count >= least && is_same(alloc, tree, &plain, bytes_are_known) {
        Some(count)
    } else {
        None
    }
}
