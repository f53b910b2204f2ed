//! What an inode's number leads to.

use jfs_inode::Dinode;
use jfs_plain::Node;

/// An object: its node, and the bytes that it holds.
#[derive(Drop)]
pub(crate) struct Held {
    pub(crate) node: Node,
    pub(crate) bytes: Vec<u8>,
}

/// What a number leads to: nothing, an object, or one that breaks a rule.
#[derive(Drop)]
pub(crate) enum Standing {
    Free,
    Object(Held),
    Broken,
}

/// What a number leads to: no inode, one that isn't in use, one in use that breaks no rule, or one that breaks a rule itself or by a tree.
#[derive(Clone, Copy)]
pub(crate) enum Judged {
    Missing,
    Free,
    Sound(Dinode),
    Broken,
}
