//! Limits of a plain tree, worked out by hand: 65,535 links of an object, and the 64 blocks that are always kept.

use crate::tree::first_wrong_of;
use jfs_bits::Moment;
use jfs_name::{Name, NameEntry};
use jfs_plain::{Call, Node, PlainTree, Refusal, why_short};
use std::alloc::{AllocError, Global};
use std::test::*;

const THEN: Moment = Moment { sec: 7, nano: 0 };

/// A root directory that has so many links, and a name `f`, which leads to inode 3.
fn root(alloc: Global, links: u32) -> Result<Node, AllocError> {
    let mut root = Node::directory(alloc, 0o755, 2, THEN);
    let mut name = Name::new(alloc);
    name.extend_from_slice(&[0x66])?;
    root.gain(NameEntry { name, inode: 3 }, THEN)?;
    root.links = links;
    Ok(root)
}

/// A tree of such a root, and a file with so many links.
fn linked(alloc: Global, root_links: u32, file_links: u32) -> Result<PlainTree, AllocError> {
    let root = root(alloc, root_links)?;
    let mut file = Node::file(alloc, 0o644, THEN);
    file.links = file_links;
    let mut tree = PlainTree::empty(alloc, 33_554_432);
    if tree.is_free(2) {
        tree.put_object(2, root, Vec::new(alloc))?;
    }
    if tree.is_free(3) {
        tree.put_object(3, file, Vec::new(alloc))?;
    }
    Ok(tree)
}

static LINKS_OF_A_DIRECTORY: [(&str, &str); 15] = [
    ("mkdir /a 0755", "ok"),
    ("mkdir /b 0755", "ok"),
    ("stat /", "stat dir 0755 65535 0 0 0 2 101"),
    ("mkdir /c 0755", "refused 7 TooManyLinks"),
    ("mkdir /b 0755", "refused 5 Exists"),
    ("create /g 0644", "ok"),
    ("mkdir /a/d 0755", "ok"),
    ("rename /a/d /c", "refused 7 TooManyLinks"),
    ("rename /b /c", "ok"),
    ("rename /a/d /c", "ok"),
    ("stat /", "stat dir 0755 65535 0 0 0 2 109"),
    ("rmdir /c", "ok"),
    ("mkdir /a/e 0755", "ok"),
    ("rename /a/e /c", "ok"),
    ("mkdir /b 0755", "refused 7 TooManyLinks"),
];

#[test]
fn links_of_a_directory(rt: HostRuntime) {
    let tree = linked(rt.alloc(), 65_533, 1).expect(&rt, "memory");
    assert_eq!(rt;
        first_wrong_of(rt.alloc(), tree, &LINKS_OF_A_DIRECTORY).expect(&rt, "memory"),
        None
    );
}

static LINKS_OF_A_FILE: [(&str, &str); 7] = [
    ("link /f /g", "ok"),
    ("stat /f", "stat file 0644 65535 0 0 0 3 7"),
    ("link /f /h", "refused 7 TooManyLinks"),
    ("link /f /g", "refused 5 Exists"),
    ("unlink /g", "ok"),
    ("link /f /h", "ok"),
    ("list /", "names 2 f h"),
];

#[test]
fn links_of_a_file(rt: HostRuntime) {
    let tree = linked(rt.alloc(), 2, 65_534).expect(&rt, "memory");
    assert_eq!(rt;
        first_wrong_of(rt.alloc(), tree, &LINKS_OF_A_FILE).expect(&rt, "memory"),
        None
    );
}

// Free blocks, needed ones, and whether that is too short.
static SPACE: [(u32, u32, bool); 7] = [
    (0, 1, true),
    (71, 8, true),
    (72, 8, false),
    (73, 8, false),
    (u32::MAX, u32::MAX - 63, true),
    (u32::MAX, u32::MAX - 64, false),
    (u32::MAX, u32::MAX, true),
];

fn is_short(free: u32, need: u32) -> bool {
    why_short(free, need) == Some(Refusal::NoSpace { free })
}

#[test]
fn space(rt: HostRuntime) {
    for (free, need, wanted) in SPACE.iter() {
        assert!(rt; is_short(*free, *need) == *wanted, "{free} {need}");
        assert!(rt;
            *wanted || why_short(*free, *need).is_none(),
            "{free} {need}"
        );
    }
}

#[test]
fn need(rt: HostRuntime) {
    assert_eq!(rt; Call::Sync.need(), 0);
}
