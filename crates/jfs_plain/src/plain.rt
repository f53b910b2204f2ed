//! A plain file tree by maps.

ghost use Rattle.std.specs.Prelude.{◌≡◌, Ok, Err, IfOk, IfErr, is_none};
ghost use Rattle.jfs_plain.specs.Tree.{root, enter, walk, object, place, new_place, named_in, passes, object_as, place_as};
ghost use Rattle.jfs_plain.specs.Step.{links_of};
ghost use Rattle.jfs_plain.specs.Plain.{tree_of, node_at};

use crate::content::Content;
use crate::node::Node;
use crate::refusal::Refusal;
use jfs_bits::Moment;
use jfs_name::Name;
use std::alloc::Global;
use std::collections::BTreeMap;

/// The inode of the root directory.
pub const ROOT: u32 = 2;

/// A file tree by maps: what a volume means, slow, and with room for whatever is asked.
#[derive(Drop)]
pub struct PlainTree {
    pub(crate) nodes: BTreeMap<u32, Node>,
    /// What the files hold; the bytes behind it are zeros.
    pub(crate) contents: BTreeMap<u32, Content>,
    pub(crate) file_limit: u64,
    pub(crate) alloc: Global,
}

/// What a call is handed: an inode that is free, for a new object, and the moment.
#[derive(Clone, Copy)]
pub(crate) struct Supply {
    pub inode: u32,
    pub now: Moment,
}

impl PlainTree {
    /// Whether no object has this number.
    pub fn is_free(&self, n: u32) -> bool
        ensures { result ≡ is_none (node_at self.now n) }
    {
        self.nodes.get(&n).is_none()
    }

    /// The object that a path leads to, and its number.
    pub(crate) fn object(&self, path: &[Name]) -> Result<(u32, &Node), Refusal>
        ensures ok { IfOk result (λ found. object (tree_of self.now) path.now ≡ object_as found.0 found.1.now) }
        ensures err { IfErr result (λ why. object (tree_of self.now) path.now ≡ Err why) }
    {
        let n = self.walk(path)?;
        match self.nodes.get(&n) {
            Some(node) => Ok((n, node)),
            None => Err(Refusal::NotFound),
        }
    }

    /// The number of what a path leads to.
    fn walk(&self, path: &[Name]) -> Result<u32, Refusal>
        ensures { result ≡ walk (tree_of self.now) root path.now }
    {
        let mut n = ROOT;
        for name in path {
            n = self.enter(n, name)?;
        }
        Ok(n)
    }

    /// What a name leads to from an object.
    fn enter(&self, n: u32, name: &Name) -> Result<u32, Refusal>
        ensures { result ≡ enter (tree_of self.now) n name.now }
    {
        let Some(node) = self.nodes.get(&n) else {
            return Err(Refusal::NotFound);
        };
        if !node.is_dir() {
            return Err(Refusal::NotDir);
        }
        node.names.find(name).ok_or(Refusal::NotFound)
    }

    /// The place of a path's last name: a directory, and the name.
    pub(crate) fn place<'a>(&self, path: &'a [Name]) -> Result<(u32, &'a Name), Refusal>
        ensures ok { IfOk result (λ at. place (tree_of self.now) path.now ≡ place_as at.0 at.1.now) }
        ensures err { IfErr result (λ why. place (tree_of self.now) path.now ≡ Err why) }
    {
        let Some((first, others)) = path.split_first() else {
            return Err(Refusal::Exists);
        };
        let mut dir = ROOT;
        let mut last = first;
        for name in others {
            dir = self.enter(dir, last)?;
            last = name;
        }
        match self.nodes.get(&dir) {
            None => Err(Refusal::NotFound),
            Some(node) if !node.is_dir() => Err(Refusal::NotDir),
            Some(_) => Ok((dir, last)),
        }
    }

    /// What stands at a place.
    pub(crate) fn find(&self, dir: u32, name: &Name) -> Option<u32>
        ensures { result ≡ named_in (node_at self.now dir) name.now }
    {
        self.nodes.get(&dir)?.names.find(name)
    }

    /// The place of a new name.
    pub(crate) fn new_place<'a>(&self, path: &'a [Name]) -> Result<(u32, &'a Name), Refusal>
        ensures ok { IfOk result (λ at. new_place (tree_of self.now) path.now ≡ place_as at.0 at.1.now) }
        ensures err { IfErr result (λ why. new_place (tree_of self.now) path.now ≡ Err why) }
    {
        let (dir, name) = self.place(path)?;
        match self.find(dir, name) {
            None => Ok((dir, name)),
            Some(_) => Err(Refusal::Exists),
        }
    }

    /// Whether a path leads through a directory on the way to its last name.
    pub(crate) fn passes(&self, path: &[Name], through: u32) -> bool
        ensures { result ≡ passes (tree_of self.now) path.now through }
    {
        let Some((first, others)) = path.split_first() else {
            return false;
        };
        let mut dir = ROOT;
        let mut last = first;
        for name in others {
            if dir == through {
                return true;
            }
            match self.enter(dir, last) {
                Ok(n) => dir = n,
                Err(_) => return false,
            }
            last = name;
        }
        dir == through
    }

    /// The number of links of an object.
    pub(crate) fn links(&self, n: u32) -> u32
        ensures { result ≡ links_of (tree_of self.now) n }
    {
        match self.nodes.get(&n) {
            Some(node) => node.links,
            None => 0,
        }
    }
}
