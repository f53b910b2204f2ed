//! Calls that take names: unlink, rmdir.

ghost use Rattle.std.specs.Prelude.{◌≡◌};
ghost use Rattle.jfs_plain.specs.Moves.{unnamed};
ghost use Rattle.jfs_plain.specs.Step.{unlink, rmdir};
ghost use Rattle.jfs_plain.specs.Plain.{Became, Meets, ample, tree_of};

use crate::plain::{PlainTree, Supply};
use crate::refusal::Refusal;
use crate::reply::Reply;
use jfs_bits::Moment;
use jfs_name::Name;

impl PlainTree {
    pub(crate) fn unlink(&mut self, path: &[Name], supply: Supply) -> Result<Reply, Refusal>
        ensures answer { Meets (tree_of self.old) (unlink (ample self.old.file_limit supply.inode) (tree_of self.old) path.now supply.now) result (tree_of self.new) }
        ensures limit { self.new.file_limit ≡ self.old.file_limit }
    {
        let (n, node) = self.object(path)?;
        if node.is_dir() {
            return Err(Refusal::IsDir);
        }
        if node.is_last_of_big(self.file_limit) {
            return Err(Refusal::FileTooBig);
        }
        let links = node.links;
        let (dir, name) = self.place(path)?;
        self.lose(dir, name, supply.now);
        self.unname(n, links, supply.now);
        Ok(Reply::Done)
    }

    pub(crate) fn rmdir(&mut self, path: &[Name], now: Moment) -> Result<Reply, Refusal>
        ensures answer { Meets (tree_of self.old) (rmdir (tree_of self.old) path.now now) result (tree_of self.new) }
        ensures limit { self.new.file_limit ≡ self.old.file_limit }
    {
        if path.is_empty() {
            return Err(Refusal::IntoItself);
        }
        let (n, node) = self.object(path)?;
        if !node.is_dir() {
            return Err(Refusal::NotDir);
        }
        if node.has_names() {
            return Err(Refusal::NotEmpty);
        }
        let (dir, name) = self.place(path)?;
        self.lose(dir, name, now);
        self.fall(dir);
        self.destroy(n);
        Ok(Reply::Done)
    }

    /// An object with so many links loses a name, and goes with its last one.
    pub(crate) fn unname(&mut self, n: u32, links: u32, now: Moment)
        ensures { Became self.old self.new (unnamed n links now) }
    {
        if links <= 1 {
            self.destroy(n);
        } else {
            self.fall(n);
            self.stamp(n, now);
        }
    }
}
