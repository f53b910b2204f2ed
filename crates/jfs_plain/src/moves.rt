//! Changes of one object of a plain tree each.

ghost use Rattle.std.specs.Prelude.{◌≡◌, ◌<◌, OnOk, OnErr};
ghost use Rattle.jfs_plain.specs.Moves.{stamped, gains, loses, leads, rises, falls, moves, permits, sized, changed, dropped};
ghost use Rattle.jfs_plain.specs.Step.{entry_as, links_of};
ghost use Rattle.jfs_plain.specs.Plain.{Became, tree_of};

use crate::copy::copy_name;
use crate::plain::PlainTree;
use jfs_bits::Moment;
use jfs_name::{Name, NameEntry};
use std::alloc::AllocError;

impl PlainTree {
    /// An object goes.
    pub(crate) fn destroy(&mut self, n: u32)
        ensures { Became self.old self.new (dropped n) }
    {
        self.nodes.remove(&n);
        self.contents.remove(&n);
    }

    /// A directory gains a name; at `Err` the tree is as it was.
    pub(crate) fn gain(
        &mut self,
        dir: u32,
        name: &Name,
        inode: u32,
        now: Moment,
    ) -> Result<(), AllocError>
        ensures ok { OnOk result (Became self.old self.new (changed dir (gains (entry_as name.now inode) now))) }
        ensures err { OnErr result (Became self.old self.new (λ t. t)) }
    {
        let entry = NameEntry {
            name: copy_name(self.alloc, name)?,
            inode,
        };
        match self.nodes.get_mut(&dir) {
            Some(node) => node.gain(entry, now),
            None => Ok(()),
        }
    }

    /// A directory loses a name.
    pub(crate) fn lose(&mut self, dir: u32, name: &Name, now: Moment)
        ensures { Became self.old self.new (changed dir (loses name.now now)) }
    {
        if let Some(node) = self.nodes.get_mut(&dir) {
            node.lose(name, now);
        }
    }

    /// A name of a directory leads to another object.
    pub(crate) fn lead(&mut self, dir: u32, name: &Name, n: u32, now: Moment)
        ensures { Became self.old self.new (changed dir (leads name.now n now)) }
    {
        if let Some(node) = self.nodes.get_mut(&dir) {
            node.lead(name, n, now);
        }
    }

    /// One link more.
    pub(crate) fn rise(&mut self, n: u32)
        requires { links_of (tree_of self.old) n < 4294967295 }
        ensures { Became self.old self.new (changed n rises) }
    {
        if let Some(node) = self.nodes.get_mut(&n) {
            node.links += 1;
        }
    }

    /// One link less.
    pub(crate) fn fall(&mut self, n: u32)
        ensures { Became self.old self.new (changed n falls) }
    {
        if let Some(node) = self.nodes.get_mut(&n) {
            node.fall();
        }
    }

    /// The change time is now.
    pub(crate) fn stamp(&mut self, n: u32, now: Moment)
        ensures { Became self.old self.new (changed n (stamped now)) }
    {
        if let Some(node) = self.nodes.get_mut(&n) {
            node.stamp(now);
        }
    }

    /// A directory has another parent.
    pub(crate) fn move_to(&mut self, n: u32, parent: u32)
        ensures { Became self.old self.new (changed n (moves parent)) }
    {
        if let Some(node) = self.nodes.get_mut(&n) {
            node.parent = parent;
        }
    }

    /// The permission bits are others.
    pub(crate) fn permit(&mut self, n: u32, mode: u32)
        ensures { Became self.old self.new (changed n (permits mode)) }
    {
        if let Some(node) = self.nodes.get_mut(&n) {
            node.mode = mode;
        }
    }

    /// A file has another size, and was written.
    pub(crate) fn resize(&mut self, n: u32, size: u64, now: Moment)
        ensures { Became self.old self.new (changed n (sized size now)) }
    {
        if let Some(node) = self.nodes.get_mut(&n) {
            node.size = size;
            node.write(now);
        }
    }
}
