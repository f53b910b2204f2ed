//! Rename.

ghost use Rattle.std.specs.Prelude.{◌≡◌, ◌<◌, ◌==◌, true, false, None, Some, IfSome, IfNone};
ghost use Rattle.jfs_plain.specs.Tree.{place_at, found_at};
ghost use Rattle.jfs_plain.specs.Moves.{displaced, arrives, shifts};
ghost use Rattle.jfs_plain.specs.Step.{rename, renamed, why_barred, occupant, links_of, departs};
ghost use Rattle.jfs_plain.specs.Plain.{Became, Meets, ample, tree_of};

use crate::node::{MOST_LINKS, Node};
use crate::plain::{PlainTree, Supply};
use crate::refusal::Refusal;
use crate::reply::Reply;
use jfs_bits::Moment;
use jfs_name::Name;

impl PlainTree {
    pub(crate) fn rename(
        &mut self,
        from: &[Name],
        to: &[Name],
        supply: Supply,
    ) -> Result<Reply, Refusal>
        ensures answer { Meets (tree_of self.old) (rename (ample self.old.file_limit supply.inode) (tree_of self.old) from.now to.now supply.now) result (tree_of self.new) }
        ensures limit { self.new.file_limit ≡ self.old.file_limit }
    {
        let (n, node) = self.object(from)?;
        if from.is_empty() || to.is_empty() {
            return Err(Refusal::IntoItself);
        }
        let is_dir = node.is_dir();
        let old_place = self.place(from)?;
        let new_place = self.place(to)?;
        let inside = self.passes(to, n);
        self.rename_at(n, is_dir, inside, old_place, new_place, supply)
    }

    /// An object is moved from one place to another, where something may be.
    fn rename_at(
        &mut self,
        n: u32,
        is_dir: bool,
        inside: bool,
        from: (u32, &Name),
        to: (u32, &Name),
        supply: Supply,
    ) -> Result<Reply, Refusal>
        ensures answer { Meets (tree_of self.old) (renamed (ample self.old.file_limit supply.inode) (tree_of self.old) n is_dir inside (place_at from.entry.0 from.entry.1.now) (place_at to.entry.0 to.entry.1.now) supply.now (occupant (tree_of self.old) (place_at to.entry.0 to.entry.1.now))) result (tree_of self.new) }
        ensures limit { self.new.file_limit ≡ self.old.file_limit }
    {
        match self.occupant(to.0, to.1) {
            None => {
                if let Some(why) = self.why_barred(is_dir, inside, from.0, to.0) {
                    return Err(why);
                }
                self.gain(to.0, to.1, n, supply.now)?;
                self.shift(is_dir, from.0, to.0);
                self.depart(n, is_dir, from, to.0, supply.now);
                Ok(Reply::Done)
            }
            Some((old, node)) => {
                if old == n {
                    return Ok(Reply::Done);
                }
                if let Some(why) = node.why_kept(is_dir, inside, self.file_limit) {
                    return Err(why);
                }
                let links = node.links;
                self.lead(to.0, to.1, n, supply.now);
                self.displace(old, is_dir, links, from.0, supply.now);
                self.depart(n, is_dir, from, to.0, supply.now);
                Ok(Reply::Done)
            }
        }
    }

    /// Why an object can't go from one directory to another where nothing has its name.
    fn why_barred(&self, by_dir: bool, inside: bool, from: u32, to: u32) -> Option<Refusal>
        ensures { result ≡ why_barred by_dir inside (from == to) (links_of (tree_of self.now) to) }
    {
        if by_dir && inside {
            return Some(Refusal::IntoItself);
        }
        if by_dir && from != to && self.links(to) >= MOST_LINKS {
            return Some(Refusal::TooManyLinks);
        }
        None
    }

    /// What stands at a place.
    fn occupant(&self, dir: u32, name: &Name) -> Option<(u32, &Node)>
        ensures some { IfSome result (λ old. occupant (tree_of self.now) (place_at dir name.now) ≡ Some (found_at old.0 old.1.now)) }
        ensures none { IfNone result (occupant (tree_of self.now) (place_at dir name.now) ≡ None) }
    {
        let n = self.find(dir, name)?;
        let node = self.nodes.get(&n)?;
        Some((n, node))
    }

    /// A directory comes from one directory to another, where it takes no other's place.
    fn shift(&mut self, is_dir: bool, from: u32, to: u32)
        requires { is_dir ≡ true → (from == to) ≡ false → links_of (tree_of self.old) to < 4294967295 }
        ensures { Became self.old self.new (shifts is_dir from to) }
    {
        if is_dir && from != to {
            self.rise(to);
            self.fall(from);
        }
    }

    /// An object with so many links loses its name to another, which comes from a directory.
    fn displace(&mut self, n: u32, by_dir: bool, links: u32, from: u32, now: Moment)
        ensures { Became self.old self.new (displaced n by_dir links from now) }
    {
        if by_dir {
            self.destroy(n);
            self.fall(from);
        } else {
            self.unname(n, links, now);
        }
    }

    /// An object that has its new name loses the old one.
    fn depart(&mut self, n: u32, is_dir: bool, from: (u32, &Name), to: u32, now: Moment)
        ensures { Became self.old self.new (departs n is_dir (place_at from.entry.0 from.entry.1.now) to now) }
    {
        self.arrive(n, is_dir, to, now);
        self.lose(from.0, from.1, now);
    }

    /// An object is in another directory.
    fn arrive(&mut self, n: u32, is_dir: bool, to: u32, now: Moment)
        ensures { Became self.old self.new (arrives n is_dir to now) }
    {
        if is_dir {
            self.move_to(n, to);
        }
        self.stamp(n, now);
    }
}
