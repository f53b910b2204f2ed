//! The nodes and the bytes of the small volume.

use crate::made::tree_with;
use jfs_bits::Moment;
use jfs_name::Name;
use jfs_plain::{NodeKind, PlainTree, Stat, Times};
use std::alloc::Global;
use std::test::*;

fn stat_of(tree: &PlainTree, n: u32) -> Option<Stat> {
    match tree.node(n) {
        Some(node) => Some(node.stat(n)),
        None => None,
    }
}

/// The inode of a name of one unit in the root; 0 where it isn't there.
fn inode_of(alloc: Global, tree: &PlainTree, unit: u16) -> Option<u32> {
    let mut name = Name::new(alloc);
    name.push(unit).ok()?;
    Some(tree.node(2)?.names.find(&name).unwrap_or(0))
}

fn times_of(tree: &PlainTree, n: u32) -> Option<Times> {
    match tree.node(n) {
        Some(node) => Some(node.times),
        None => None,
    }
}

/// Whether an object has this target.
fn leads(tree: &PlainTree, n: u32, target: &[u8]) -> bool {
    match tree.node(n) {
        Some(node) => node.target.as_slice() == target,
        None => false,
    }
}

/// An object without an owner's number: its inode, kind, mode, links, size, and the second at which its contents were changed.
static NODES: [(u32, NodeKind, u32, u32, u64, u32); 6] = [
    (0, NodeKind::File, 0, 1, 0, 0),
    (2, NodeKind::Dir, 0o755, 2, 0, 21),
    (3, NodeKind::File, 0, 1, 0, 0),
    (5, NodeKind::Link, 0o777, 1, 3, 0),
    (6, NodeKind::Link, 0o777, 1, 256, 0),
    (7, NodeKind::Other, 0o666, 2, 0, 0),
];

/// The first object that is told to be another one.
fn first_wrong(tree: &PlainTree) -> Option<u32> {
    for (inode, kind, mode, nlink, size, sec) in NODES.iter() {
        let stat = Stat {
            kind: *kind,
            mode: *mode,
            nlink: *nlink,
            uid: 0,
            gid: 0,
            size: *size,
            inode: *inode,
            mtime: Moment { sec: *sec, nano: 0 },
        };
        if stat_of(tree, *inode) != Some(stat) {
            return Some(*inode);
        }
    }
    None
}

/// The tree of the small volume.
fn tree(alloc: Global) -> Option<PlainTree> {
    tree_with(alloc, &[])?
}

#[test]
fn nodes_are_the_inodes(rt: HostRuntime) {
    let tree = tree(rt.alloc()).expect(&rt, "the image has a tree");
    assert!(rt; first_wrong(&tree) == None);
    assert!(rt; stat_of(&tree, 8) == None);
}

const FILE: Stat = Stat {
    kind: NodeKind::File,
    mode: 0o6644,
    nlink: 1,
    uid: 7,
    gid: 8,
    size: 12_294,
    inode: 4,
    mtime: Moment { sec: 15, nano: 16 },
};

const TIMES: Times = Times {
    accessed: Moment { sec: 11, nano: 12 },
    modified: Moment { sec: 15, nano: 16 },
    changed: Moment { sec: 13, nano: 14 },
    made: Moment { sec: 17, nano: 18 },
};

#[test]
fn file_keeps_its_fields(rt: HostRuntime) {
    let tree = tree(rt.alloc()).expect(&rt, "the image has a tree");
    assert!(rt; stat_of(&tree, 4) == Some(FILE));
    assert!(rt; times_of(&tree, 4) == Some(TIMES));
}

/// A name of one unit, and the inode to which it leads, or 0.
static NAMES: [(u16, u32); 5] = [(97, 4), (98, 5), (99, 6), (100, 7), (101, 0)];

/// A target of 256 units, of which the last ones are `abcd`.
fn long_target() -> [u8; 256] {
    let mut long = [0u8; 256];
    long[252] = 0x61;
    long[253] = 0x62;
    long[254] = 0x63;
    long[255] = 0x64;
    long
}

#[test]
fn names_and_targets(rt: HostRuntime) {
    let tree = tree(rt.alloc()).expect(&rt, "the image has a tree");
    for (unit, inode) in NAMES.iter() {
        assert!(rt; inode_of(rt.alloc(), &tree, *unit) == Some(*inode));
    }
    assert!(rt; leads(&tree, 5, b"xyz") && leads(&tree, 4, b""));
    assert!(rt; leads(&tree, 6, &long_target()));
}

/// A place in the file, and the byte there; behind its end are zeros.
static BYTES: [(u64, u8); 13] = [
    (0, 0x41),
    (3, 0x44),
    (4, 0),
    (4092, 0x57),
    (4095, 0x5a),
    (4096, 0),
    (8192, 0),
    (12_288, 0x31),
    (12_291, 0x34),
    (12_292, 0x35),
    (12_293, 0x36),
    (12_294, 0),
    (99_999_999, 0),
];

#[test]
fn bytes_of_the_file(rt: HostRuntime) {
    let tree = tree(rt.alloc()).expect(&rt, "the image has a tree");
    for (i, byte) in BYTES.iter() {
        assert!(rt; tree.byte(4, *i) == *byte);
    }
    // a link's blocks aren't a file's bytes
    assert!(rt; tree.byte(6, 252) == 0);
}
