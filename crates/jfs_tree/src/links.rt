//! The links of a page to its neighbours.

ghost use Rattle.std.specs.Prelude.{◌≡◌, length};

use crate::walk_read::PageRead;

/// The pages of a kind of tree, each with a link to the page behind it on its level and to the one before it.
pub trait PageLinks: PageRead {
    /// Makes page `n` the one behind it, 0 where there is none. A page that breaks a rule stays as it is.
    fn set_next(&self, bytes: &mut [u8], n: u32)
        requires { length bytes.old ≡ Self.size self.now }
        ensures node { Self.node self.now bytes.new ≡ Self.node self.now bytes.old }
        ensures frame { Self.frame self.now bytes.new ≡ Self.frame self.now bytes.old };

    /// Makes page `n` the one before it, 0 where there is none. A page that breaks a rule stays as it is.
    fn set_prev(&self, bytes: &mut [u8], n: u32)
        requires { length bytes.old ≡ Self.size self.now }
        ensures node { Self.node self.now bytes.new ≡ Self.node self.now bytes.old }
        ensures frame { Self.frame self.now bytes.new ≡ Self.frame self.now bytes.old };
}
