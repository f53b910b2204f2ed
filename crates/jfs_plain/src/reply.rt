//! What callers are answered.

use crate::refusal::Refusal;
use jfs_bits::{Blob, Moment};
use jfs_name::NameList;

/// What an object is. Devices, pipes and sockets are `Other`.
#[derive(Clone, Copy, PartialEq, Eq, Debug)]
pub enum NodeKind {
    Dir,
    File,
    Link,
    Other,
}

/// What `stat` tells of an object. A directory's size is 0. (POSIX: struct stat.)
#[derive(Clone, Copy, PartialEq, Eq, Debug)]
pub struct Stat {
    pub kind: NodeKind,
    pub mode: u32,
    pub nlink: u32,
    pub uid: u32,
    pub gid: u32,
    pub size: u64,
    pub inode: u32,
    pub mtime: Moment,
}

/// The reply to a call.
#[derive(Debug, Drop)]
pub enum Reply {
    /// A call that changes, or `sync`, did so.
    Done,
    /// To `read`.
    Bytes(Blob),
    /// To `stat`.
    Attr(Stat),
    /// To `list`: the names in their order.
    Names(NameList),
    /// To `readlink`.
    Target(Blob),
    Refused(Refusal),
}
