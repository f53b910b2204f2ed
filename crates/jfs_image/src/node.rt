//! The node that an inode is.

ghost use Rattle.std.specs.Prelude.{◌≡◌, IfOk};
ghost use Rattle.jfs_inode.specs.Rules.{type_of};
ghost use Rattle.jfs_reader.specs.meaning.specs.Node.{kind_of, times_of, size_of, parent_in, node_with};

use jfs_bits::Blob;
use jfs_dtree::parent;
use jfs_inode::Dinode;
use jfs_name::NameList;
use jfs_plain::{Entries, Node, NodeKind, Times};
use jfs_reader::root_in;
use std::alloc::{AllocError, Global};

/// The node of an inode with this target and these names.
pub(crate) fn node_with(
    alloc: Global,
    d: &Dinode,
    target: Blob,
    names: &NameList,
) -> Result<Node, AllocError>
    ensures { IfOk result (λ node. node ≡ node_with d.now target names.now) }
{
    Ok(Node {
        kind: kind_of(d),
        mode: d.mode & 0xfff,
        uid: d.uid,
        gid: d.gid,
        links: d.nlink,
        size: size_of(d),
        parent: parent_in(d),
        times: times_of(d),
        target,
        names: Entries::listed(alloc, names)?,
    })
}

/// Devices, pipes and sockets are `Other`.
fn kind_of(d: &Dinode) -> NodeKind
    ensures { result ≡ kind_of (type_of d.now) }
{
    let kind = d.mode & Dinode::TYPE;
    if kind == Dinode::DIRECTORY {
        return NodeKind::Dir;
    }
    if kind == Dinode::REGULAR {
        return NodeKind::File;
    }
    if kind == Dinode::LINK {
        return NodeKind::Link;
    }
    NodeKind::Other
}

/// A directory's size isn't told.
fn size_of(d: &Dinode) -> u64
    ensures { result ≡ size_of d.now }
{
    if d.mode & Dinode::TYPE == Dinode::DIRECTORY {
        return 0;
    }
    d.size
}

/// The parent that a directory's root names.
fn parent_in(d: &Dinode) -> u32
    ensures { result ≡ parent_in d.now }
{
    if d.mode & Dinode::TYPE != Dinode::DIRECTORY {
        return 0;
    }
    parent(root_in(d))
}

fn times_of(d: &Dinode) -> Times
    ensures { result ≡ times_of d.now }
{
    Times {
        accessed: d.atime,
        modified: d.mtime,
        changed: d.ctime,
        made: d.otime,
    }
}
