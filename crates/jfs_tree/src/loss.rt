//! Pages that lose entries and children.

ghost use Rattle.std.specs.Prelude.{◌≡◌, ◌<◌, [], IfNone, IfSome, length};
ghost use Rattle.jfs_tree.specs.Walk.{Leaf};
ghost use Rattle.jfs_tree.specs.Form.{IsLeaf};
ghost use Rattle.jfs_tree.specs.Leftmost.{LowersFirst};
ghost use Rattle.jfs_tree.specs.Shrink.{IsLoose};
ghost use Rattle.jfs_tree.specs.Removal.{HasOthers, TakesRow, TakesChild, TellsSingle};

use crate::pages::PageForm;

/// The pages of a kind of tree from which entries are taken one by one.
pub trait PageLoss: PageForm {
    /// Takes the entry that shares a place with `x` out of a leaf; where there is none, the leaf stays as it is.
    fn remove(&self, bytes: &mut [u8], x: &Self::Entry) -> Option<Self::Entry>
        requires size { length bytes.old ≡ Self.size self.now }
        requires leaf { IsLeaf (Self.node self.now bytes.old) }
        ensures takes { TakesRow Self.scale x.now (Self.node self.now bytes.old) (Self.node self.now bytes.new) result }
        ensures kept { IfNone result (bytes.new ≡ bytes.old) }
        ensures frame { Self.frame self.now bytes.new ≡ Self.frame self.now bytes.old };

    /// Takes the child at the place out of an inner page that has others.
    fn remove_child(&self, bytes: &mut [u8], place: usize)
        requires size { length bytes.old ≡ Self.size self.now }
        requires others { HasOthers place (Self.node self.now bytes.old) }
        ensures takes { TakesChild place (Self.node self.now bytes.old) (Self.node self.now bytes.new) }
        ensures frame { Self.frame self.now bytes.new ≡ Self.frame self.now bytes.old };

    /// Makes the key of an inner page's first child the least one, and answers that child's page. Another page stays as it is.
    fn lower_first(&self, bytes: &mut [u8]) -> Option<u32>
        requires { length bytes.old ≡ Self.size self.now }
        ensures first { LowersFirst Self.scale (Self.node self.now bytes.old) (Self.node self.now bytes.new) result }
        ensures within { IfSome result (λ page. page < Self.blocks self.now) }
        ensures frame { Self.frame self.now bytes.new ≡ Self.frame self.now bytes.old };

    /// Whether a page has one entry alone, or one child alone.
    fn is_single(&self, bytes: &[u8]) -> bool
        requires { length bytes.now ≡ Self.size self.now }
        ensures { TellsSingle (Self.node self.now bytes.now) result };

    /// Makes a root a leaf without entries.
    fn empty(&self, root: &mut [u8])
        requires size { length root.old ≡ Self.size self.now }
        requires top { Self.is_root self.now }
        ensures empty { Self.node self.now root.new ≡ Leaf [] }
        ensures frame { Self.frame self.now root.new ≡ Self.frame self.now root.old };

    /// Keys stay where entries go.
    ghost loose: { IsLoose Self.scale };
}
