//! The pages of a kind of tree.

ghost use Rattle.std.specs.Prelude.{◌≡◌, ◌==◌, ◌<◌, ◌+◌, ℕ, Bool, true, List, [], ◌∷◌, IfOk, length};
ghost use Rattle.jfs_tree.specs.Walk.{Child, Node, Leaf, Inner, Scale, IsOrder};
ghost use Rattle.jfs_tree.specs.Edit.{IsApart, KeysRise, with_entry, found_in};
ghost use Rattle.jfs_tree.specs.Filled.{ComesPast, FillsBoth};
ghost use Rattle.jfs_tree.specs.Form.{Leads, IsWithin, TellsLast, IfFull, PutsRow, SplitsRows, PutsChild, AtPlace, SplitsChildren, HasRisingKeys, GoesBehind, as_child};
ghost use Rattle.jfs_tree.specs.Apart.{PutsApart};

use crate::form::{Put, Sibling, Way};
use jfs_bits::Rule;

/// The pages of a kind of tree, in one of their forms: a root in an inode, or a page.
pub trait PageForm {
    type Key: Drop;

    type Entry: Drop;

    /// How entries lie among keys.
    ghost scale: { Scale Self.Key Self.Entry };

    /// What bytes read as.
    ghost node: { Self → List ℕ → Node Self.Key Self.Entry };

    /// The number of bytes.
    ghost size: { Self → ℕ };

    /// The number of blocks of the file system part, in which all pages lie.
    ghost blocks: { Self → ℕ };

    /// What a page can hold as an entry.
    ghost is_good: { Self → Self.Entry → Type 0 };

    /// There may be no room for one more.
    ghost is_full: { Self → List ℕ → Type 0 };

    /// There is no room for the entry.
    ghost has_no_room: { Self → List ℕ → Self.Entry → Type 0 };

    /// There is no room for a child with the key.
    ghost has_no_place: { Self → List ℕ → Self.Key → Type 0 };

    /// What can be a key on a page.
    ghost is_key: { Self.Key → Type 0 };

    /// The form is one of a root, which takes fewer entries than a page.
    ghost is_root: { Self → Type 0 };

    /// A full page that gets another one beside it keeps at least so many entries, and so does the new one, but for the last of its level; `true` tells
    /// that the page is the last one of its level, and what it gets goes behind all that it has.
    ghost fills: { Bool → ℕ → Type 0 };

    /// The form of the pages below a root.
    ghost below: { Self → Self };

    /// What the bytes have beside entries, kind and links, as the page's own descriptor. It stays while entries come and go.
    ghost frame: { Self → List ℕ → List ℕ };

    /// What page `n` has there when it is new: it names itself.
    ghost new_frame: { Self → ℕ → List ℕ };

    /// Where the page leads the entry.
    fn way(&self, bytes: &[u8], x: &Self::Entry) -> Result<Way, Rule>
        requires { length bytes.now ≡ size self.now }
        ensures way { Leads scale x.now (node self.now bytes.now) result }
        ensures within { IfOk result (λ way. IsWithin (blocks self.now) way) }
        ensures last { IfOk result (λ way. TellsLast (node self.now bytes.now) way) }
        ensures rise { HasRisingKeys scale (node self.now bytes.now) };

    /// Whether a leaf has no entry.
    fn is_bare(&self, bytes: &[u8]) -> bool
        requires { length bytes.now ≡ size self.now }
        ensures { (es : List Self.Entry) → node self.now bytes.now ≡ Leaf es → result ≡ (length es == 0) };

    /// The entry of a leaf that shares a place with `x`.
    fn find(&self, bytes: &[u8], x: &Self::Entry) -> Option<Self::Entry>
        requires { length bytes.now ≡ size self.now }
        ensures { (es : List Self.Entry) → node self.now bytes.now ≡ Leaf es → result ≡ found_in scale x.now es };

    /// Puts the entry into a leaf, where there is room.
    fn put(&self, bytes: &mut [u8], x: &Self::Entry) -> Put
        requires size { length bytes.old ≡ size self.now }
        requires good { is_good self.now x.now }
        ensures row { PutsRow scale x.now (node self.now) (is_full self.now) bytes.old bytes.new result }
        ensures apart { PutsApart scale x.now (node self.now bytes.old) result }
        ensures room { IfFull result (has_no_room self.now bytes.old x.now) }
        ensures frame { frame self.now bytes.new ≡ frame self.now bytes.old };

    /// Puts the entry into page `n`, a leaf below a root that has no room for it, and the leaf's last part into page `q`, whose key it answers.
    /// `last` tells that page `n` is the last one of its level. A root is never split: it moves down.
    fn split(
        &self,
        n: u32,
        q: u32,
        last: bool,
        bytes: &mut [u8],
        right: &mut [u8],
        x: &Self::Entry,
    ) -> Self::Key
        requires below { is_root self.now → ⊥ }
        requires size { (length bytes.old ≡ size self.now) × (length right.old ≡ size self.now) }
        requires good { is_good self.now x.now }
        requires full { is_full self.now bytes.old }
        ensures parts { (es : List Self.Entry) → node self.now bytes.old ≡ Leaf es → IsApart scale x.now es →
            SplitsRows scale (with_entry scale x.now es) (node self.now bytes.new) (node self.now right.new) result }
        ensures fills { (appends : Bool) (least : ℕ) → fills appends least → (es : List Self.Entry) → node self.now bytes.old ≡ Leaf es → IsApart scale x.now es → (appends ≡ true → (last ≡ true) × ComesPast scale x.now es) → FillsBoth least last (node self.now bytes.new) (node self.now right.new) }
        ensures key { is_key result }
        ensures frame { frame self.now bytes.new ≡ frame self.now bytes.old }
        ensures new { (es : List Self.Entry) → node self.now bytes.old ≡ Leaf es → IsApart scale x.now es → frame self.now right.new ≡ new_frame self.now q };

    /// Puts a child behind the one at the place, where its key is between their keys and there is room.
    fn put_child(&self, bytes: &mut [u8], place: usize, child: &Sibling<Self::Key>) -> Put
        requires size { length bytes.old ≡ size self.now }
        requires within { child.now.page < blocks self.now }
        requires key { is_key child.now.key }
        ensures child { PutsChild scale (node self.now) (is_full self.now) place child.now bytes.old bytes.new result }
        ensures room { IfFull result (has_no_place self.now bytes.old child.now.key) }
        ensures goes { IfFull result (GoesBehind scale (node self.now bytes.old) place (as_child child.now)) }
        ensures frame { frame self.now bytes.new ≡ frame self.now bytes.old };

    /// Puts a child into page `n`, an inner page below a root that has no room for it, and the page's last part into page `q`, whose key it
    /// answers. `last` tells that page `n` is the last one of its level.
    fn split_child(
        &self,
        n: u32,
        q: u32,
        last: bool,
        bytes: &mut [u8],
        right: &mut [u8],
        place: usize,
        child: &Sibling<Self::Key>,
    ) -> Self::Key
        requires below { is_root self.now → ⊥ }
        requires size { (length bytes.old ≡ size self.now) × (length right.old ≡ size self.now) }
        requires within { child.now.page < blocks self.now }
        requires key { is_key child.now.key }
        requires full { is_full self.now bytes.old }
        ensures parts { (all : List (Child Self.Key)) → AtPlace (node self.now bytes.old) place (as_child child.now) all → KeysRise scale all →
            SplitsChildren all (node self.now bytes.new) (node self.now right.new) result }
        ensures fills { (appends : Bool) (least : ℕ) → fills appends least → (all : List (Child Self.Key)) → AtPlace (node self.now bytes.old) place (as_child child.now) all → KeysRise scale all → (appends ≡ true → (last ≡ true) × (length all ≡ place + 2)) → FillsBoth least last (node self.now bytes.new) (node self.now right.new) }
        ensures key { is_key result }
        ensures frame { frame self.now bytes.new ≡ frame self.now bytes.old }
        ensures new { (all : List (Child Self.Key)) → AtPlace (node self.now bytes.old) place (as_child child.now) all → KeysRise scale all → frame self.now right.new ≡ new_frame self.now q };

    /// Moves what a full root has to a page, `q`, and keeps one child.
    fn move_down(&self, pages: &Self, q: u32, root: &mut [u8], page: &mut [u8])
        requires size { (length root.old ≡ size self.now) × (length page.old ≡ size pages.now) }
        requires top { is_root self.now }
        requires pages { below self.now ≡ pages.now }
        requires within { q < blocks self.now }
        requires full { is_full self.now root.old }
        ensures entries { (es : List Self.Entry) → node self.now root.old ≡ Leaf es → node pages.now page.new ≡ Leaf es }
        ensures children { (cs : List (Child Self.Key)) → node self.now root.old ≡ Inner cs → node pages.now page.new ≡ Inner cs }
        ensures root { node self.now root.new ≡ Inner (record { key = scale.least; page = q } ∷ []) }
        ensures room { is_full pages.now page.new → ⊥ }
        ensures frame { frame self.now root.new ≡ frame self.now root.old }
        ensures new { frame pages.now page.new ≡ new_frame pages.now q };

    ghost order: { IsOrder scale };
}
