//! Calls that give names: mkdir, create, symlink, link.

ghost use Rattle.std.specs.Prelude.{◌≡◌, None, OnOk, OnErr};
ghost use Rattle.jfs_plain.specs.Moves.{made, gains, changed};
ghost use Rattle.jfs_plain.specs.Step.{entry_as, mkdir, create, symlink, link};
ghost use Rattle.jfs_plain.specs.Plain.{Became, Meets, ample, node_at, tree_of};

use crate::copy::copy_bytes;
use crate::node::{MOST_LINKS, Node};
use crate::plain::{PlainTree, Supply};
use crate::refusal::Refusal;
use crate::reply::Reply;
use jfs_bits::{Blob, Moment};
use jfs_name::Name;
use std::alloc::AllocError;

impl PlainTree {
    pub(crate) fn mkdir(
        &mut self,
        path: &[Name],
        mode: u32,
        fresh: u32,
        now: Moment,
    ) -> Result<Reply, Refusal>
        requires { node_at self.old fresh ≡ None }
        ensures answer { Meets (tree_of self.old) (mkdir (ample self.old.file_limit fresh) (tree_of self.old) path.now mode now) result (tree_of self.new) }
        ensures limit { self.new.file_limit ≡ self.old.file_limit }
    {
        let (dir, name) = self.new_place(path)?;
        if self.links(dir) >= MOST_LINKS {
            return Err(Refusal::TooManyLinks);
        }
        let node = Node::directory(self.alloc, mode, dir, now);
        self.add(dir, name, fresh, node, now)?;
        self.rise(dir);
        Ok(Reply::Done)
    }

    pub(crate) fn create(
        &mut self,
        path: &[Name],
        mode: u32,
        fresh: u32,
        now: Moment,
    ) -> Result<Reply, Refusal>
        requires { node_at self.old fresh ≡ None }
        ensures answer { Meets (tree_of self.old) (create (ample self.old.file_limit fresh) (tree_of self.old) path.now mode now) result (tree_of self.new) }
        ensures limit { self.new.file_limit ≡ self.old.file_limit }
    {
        let (dir, name) = self.new_place(path)?;
        let node = Node::file(self.alloc, mode, now);
        self.add(dir, name, fresh, node, now)?;
        Ok(Reply::Done)
    }

    pub(crate) fn symlink(
        &mut self,
        path: &[Name],
        target: &Blob,
        fresh: u32,
        now: Moment,
    ) -> Result<Reply, Refusal>
        requires { node_at self.old fresh ≡ None }
        ensures answer { Meets (tree_of self.old) (symlink (ample self.old.file_limit fresh) (tree_of self.old) path.now target.now now) result (tree_of self.new) }
        ensures limit { self.new.file_limit ≡ self.old.file_limit }
    {
        let (dir, name) = self.new_place(path)?;
        let kept = copy_bytes(self.alloc, target)?;
        let node = Node::link(self.alloc, kept, now);
        self.add(dir, name, fresh, node, now)?;
        Ok(Reply::Done)
    }

    pub(crate) fn link(
        &mut self,
        from: &[Name],
        to: &[Name],
        supply: Supply,
    ) -> Result<Reply, Refusal>
        ensures answer { Meets (tree_of self.old) (link (ample self.old.file_limit supply.inode) (tree_of self.old) from.now to.now supply.now) result (tree_of self.new) }
        ensures limit { self.new.file_limit ≡ self.old.file_limit }
    {
        let (n, node) = self.object(from)?;
        if node.is_dir() {
            return Err(Refusal::IsDir);
        }
        let links = node.links;
        let (dir, name) = self.new_place(to)?;
        if links >= MOST_LINKS {
            return Err(Refusal::TooManyLinks);
        }
        self.gain(dir, name, n, supply.now)?;
        self.rise(n);
        self.stamp(n, supply.now);
        Ok(Reply::Done)
    }

    /// A new object and its name; at `Err` the tree is as it was.
    fn add(
        &mut self,
        dir: u32,
        name: &Name,
        n: u32,
        node: Node,
        now: Moment,
    ) -> Result<(), AllocError>
        requires { node_at self.old n ≡ None }
        ensures ok { OnOk result (Became self.old self.new (λ t. changed dir (gains (entry_as name.now n) now) (made n node t))) }
        ensures err { OnErr result (Became self.old self.new (λ t. t)) }
    {
        self.nodes.insert(n, node)?;
        if let Err(error) = self.gain(dir, name, n, now) {
            self.nodes.remove(&n);
            return Err(error);
        }
        self.contents.remove(&n);
        Ok(())
    }
}
