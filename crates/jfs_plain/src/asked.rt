//! Calls that change nothing: stat, list, readlink, and what a file holds; and chmod.

ghost use Rattle.std.specs.Prelude.{◌≡◌};
ghost use Rattle.jfs_plain.specs.Step.{stat, listed, readlink, chmod};
ghost use Rattle.jfs_plain.specs.Plain.{Meets, tree_of};

use crate::copy::copy_bytes;
use crate::plain::PlainTree;
use crate::refusal::Refusal;
use crate::reply::Reply;
use jfs_bits::Moment;
use jfs_name::Name;

impl PlainTree {
    pub(crate) fn stat(&self, path: &[Name]) -> Result<Reply, Refusal>
        ensures { Meets (tree_of self.now) (stat (tree_of self.now) path.now) result (tree_of self.now) }
    {
        let (n, node) = self.object(path)?;
        Ok(Reply::Attr(node.stat(n)))
    }

    pub(crate) fn list(&self, path: &[Name]) -> Result<Reply, Refusal>
        ensures { Meets (tree_of self.now) (listed (tree_of self.now) path.now) result (tree_of self.now) }
    {
        let (_, node) = self.object(path)?;
        if !node.is_dir() {
            return Err(Refusal::NotDir);
        }
        Ok(Reply::Names(node.names.copy(self.alloc)?))
    }

    pub(crate) fn readlink(&self, path: &[Name]) -> Result<Reply, Refusal>
        ensures { Meets (tree_of self.now) (readlink (tree_of self.now) path.now) result (tree_of self.now) }
    {
        let (_, node) = self.object(path)?;
        if !node.is_link() {
            return Err(Refusal::NotFile);
        }
        Ok(Reply::Target(copy_bytes(self.alloc, &node.target)?))
    }

    pub(crate) fn chmod(&mut self, path: &[Name], mode: u32, now: Moment) -> Result<Reply, Refusal>
        ensures answer { Meets (tree_of self.old) (chmod (tree_of self.old) path.now mode now) result (tree_of self.new) }
        ensures limit { self.new.file_limit ≡ self.old.file_limit }
    {
        let (n, _) = self.object(path)?;
        self.permit(n, mode);
        self.stamp(n, now);
        Ok(Reply::Done)
    }
}
