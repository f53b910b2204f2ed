//! Objects of a file tree.

ghost use Rattle.std.specs.Prelude.{◌≡◌, ◌+◌, ◌-◌, ◌^◌, ◌<◌, IsTrue, OnOk, OnErr};
ghost use Rattle.jfs_plain.specs.Tree.{is_dir, is_file, is_link};
ghost use Rattle.jfs_plain.specs.Moves.{stamped, written, gains, loses, leads, falls, new_node, new_directory, new_file, new_link};
ghost use Rattle.jfs_plain.specs.Step.{is_last_of_big, has_names, shown_size, stat_of, why_kept};

use crate::entries::Entries;
use crate::refusal::Refusal;
use crate::reply::{NodeKind, Stat};
use jfs_bits::{Blob, Moment};
use jfs_name::{Name, NameEntry};
use std::alloc::{AllocError, Global};

/// When an object was read, written, changed in any way, and made. (POSIX: struct stat.)
#[derive(Clone, Copy, PartialEq, Eq, Debug)]
pub struct Times {
    pub accessed: Moment,
    pub modified: Moment,
    pub changed: Moment,
    pub made: Moment,
}

/// An object of a file tree, but for what a file holds. A directory has names, and a parent; a symbolic link has a target.
#[derive(Debug, Drop)]
pub struct Node {
    pub kind: NodeKind,
    /// The permission bits.
    pub mode: u32,
    pub uid: u32,
    pub gid: u32,
    pub links: u32,
    /// In bytes.
    pub size: u64,
    /// A directory's parent; 0 of other objects.
    pub parent: u32,
    pub times: Times,
    pub target: Blob,
    pub names: Entries,
}

/// The greatest link count.
pub const MOST_LINKS: u32 = 65_535;

impl Node {
    /// A new object without names: owner 0, group 0, all times the same.
    fn new(
        alloc: Global,
        kind: NodeKind,
        mode: u32,
        links: u32,
        size: u64,
        parent: u32,
        target: Blob,
        now: Moment,
    ) -> Node
        ensures { result ≡ new_node kind mode links size parent target now }
    {
        Node {
            kind,
            mode,
            uid: 0,
            gid: 0,
            links,
            size,
            parent,
            times: Times {
                accessed: now,
                modified: now,
                changed: now,
                made: now,
            },
            target,
            names: Entries::new(alloc),
        }
    }

    /// A new directory.
    pub fn directory(alloc: Global, mode: u32, parent: u32, now: Moment) -> Node
        ensures { result ≡ new_directory mode parent now }
    {
        let target = Blob::new(alloc);
        Node::new(alloc, NodeKind::Dir, mode, 2, 0, parent, target, now)
    }

    /// A new regular file.
    pub fn file(alloc: Global, mode: u32, now: Moment) -> Node
        ensures { result ≡ new_file mode now }
    {
        let target = Blob::new(alloc);
        Node::new(alloc, NodeKind::File, mode, 1, 0, 0, target, now)
    }

    /// A new symbolic link.
    pub fn link(alloc: Global, target: Blob, now: Moment) -> Node
        ensures { result ≡ new_link target now }
    {
        let size = target.len() as u64;
        Node::new(alloc, NodeKind::Link, 0o777, 1, size, 0, target, now)
    }

    /// What `stat` tells of it, under its number.
    pub fn stat(&self, inode: u32) -> Stat
        ensures { result ≡ stat_of inode self.now }
    {
        Stat {
            kind: self.kind,
            mode: self.mode,
            nlink: self.links,
            uid: self.uid,
            gid: self.gid,
            size: self.shown_size(),
            inode,
            mtime: self.times.modified,
        }
    }

    fn shown_size(&self) -> u64
        ensures { result ≡ shown_size self.now }
    {
        if self.is_dir() { 0 } else { self.size }
    }

    pub fn is_dir(&self) -> bool
        ensures { result ≡ is_dir self.now.kind }
    {
        matches!(self.kind, NodeKind::Dir)
    }

    pub fn is_file(&self) -> bool
        ensures { result ≡ is_file self.now.kind }
    {
        matches!(self.kind, NodeKind::File)
    }

    pub fn is_link(&self) -> bool
        ensures { result ≡ is_link self.now.kind }
    {
        matches!(self.kind, NodeKind::Link)
    }

    /// Whether a directory that is to go has names.
    pub fn has_names(&self) -> bool
        ensures { result ≡ has_names self.now }
    {
        !self.names.is_empty()
    }

    /// Whether it is a file above a limit that has its last name.
    pub fn is_last_of_big(&self, limit: u64) -> bool
        ensures { result ≡ is_last_of_big limit self.now }
    {
        self.is_file() && self.links <= 1 && self.size > limit
    }

    /// Why its name can't be taken by a directory, or by another object: it would come below itself, they are of different kinds, this one has
    /// names, or it is above the limit.
    pub fn why_kept(&self, by_dir: bool, inside: bool, limit: u64) -> Option<Refusal>
        ensures { result ≡ why_kept limit by_dir inside self.now }
    {
        if by_dir && inside {
            return Some(Refusal::IntoItself);
        }
        if !by_dir && self.is_dir() {
            return Some(Refusal::IsDir);
        }
        if by_dir && !self.is_dir() {
            return Some(Refusal::NotDir);
        }
        if by_dir && self.has_names() {
            return Some(Refusal::NotEmpty);
        }
        if self.is_last_of_big(limit) {
            return Some(Refusal::FileTooBig);
        }
        None
    }

    /// Its modification and change time are now.
    pub fn write(&mut self, now: Moment)
        ensures { self.new ≡ written now self.old }
    {
        self.times.modified = now;
        self.times.changed = now;
    }

    /// Its change time is now.
    pub fn stamp(&mut self, now: Moment)
        ensures { self.new ≡ stamped now self.old }
    {
        self.times.changed = now;
    }

    /// A directory gains a name; at `Err` it is as it was.
    pub fn gain(&mut self, entry: NameEntry, now: Moment) -> Result<(), AllocError>
        ensures ok { OnOk result (self.new ≡ gains entry now self.old) }
        ensures err { OnErr result (self.new ≡ self.old) }
    {
        self.names.add(entry)?;
        self.write(now);
        Ok(())
    }

    /// A directory loses a name.
    pub fn lose(&mut self, name: &Name, now: Moment)
        ensures { self.new ≡ loses name.now now self.old }
    {
        self.names.remove(name);
        self.write(now);
    }

    /// A name of a directory leads to another object.
    pub fn lead(&mut self, name: &Name, inode: u32, now: Moment)
        ensures { self.new ≡ leads name.now inode now self.old }
    {
        self.names.lead(name, inode);
        self.write(now);
    }

    /// One link less.
    pub fn fall(&mut self)
        ensures { self.new ≡ falls self.old }
    {
        self.links = self.links.saturating_sub(1);
    }
}
