//! The pages of a kind of tree, as a walk through all of them reads them.

ghost use Rattle.std.specs.Prelude.{◌≡◌, ◌<◌, length, slice_get, Some};
ghost use Rattle.jfs_tree.specs.Form.{as_child};
ghost use Rattle.jfs_tree.specs.Walking.{Shows, rows_in, children_in};

use crate::form::Sibling;
use crate::pages::PageForm;
use jfs_bits::Rule;

/// What a page is: a leaf with so many entries, or an inner page with so many children.
#[derive(Clone, Copy, PartialEq, Eq, Debug)]
pub enum Shape {
    Leaf(usize),
    Inner(usize),
}

/// The pages of a kind of tree, entry by entry and child by child.
pub trait PageRead: PageForm {
    /// How far a walk has come: a place among the keys, at or past all that it has met.
    type Bound: Drop;

    /// The place as a key.
    ghost place: { Self.Bound → Self.Key };

    /// What a page is, or the first rule that it breaks.
    fn shape(&self, bytes: &[u8]) -> Result<Shape, Rule>
        requires { length bytes.now ≡ Self.size self.now }
        ensures { Shows (Self.node self.now bytes.now) result };

    /// An entry to read others into. What it says doesn't matter.
    fn any_entry(&self) -> Self::Entry;

    /// Reads entry `i` of a leaf over another one.
    fn read_entry(&self, bytes: &[u8], i: usize, x: &mut Self::Entry)
        requires size { length bytes.now ≡ Self.size self.now }
        requires place { i < length (rows_in (Self.node self.now bytes.now)) }
        ensures { slice_get (rows_in (Self.node self.now bytes.now)) i ≡ Some x.new };

    /// Child `i` of an inner page.
    fn child(&self, bytes: &[u8], i: usize) -> Sibling<Self::Key>
        requires size { length bytes.now ≡ Self.size self.now }
        requires place { i < length (children_in (Self.node self.now bytes.now)) }
        ensures is { slice_get (children_in (Self.node self.now bytes.now)) i ≡ Some (as_child result) }
        ensures within { result.page < Self.blocks self.now };

    /// The place before all keys and entries.
    fn least(&self) -> Self::Bound
        ensures { place result ≡ Self.scale.least };

    /// Whether a key may stand behind all that was met.
    fn takes_key(&self, low: &Self::Bound, key: &Self::Key) -> bool
        ensures { result ≡ Self.scale.le (place low.now) key.now };

    /// Whether an entry may stand behind all that was met.
    fn takes_entry(&self, low: &Self::Bound, x: &Self::Entry) -> bool
        ensures { result ≡ Self.scale.le (place low.now) (Self.scale.from x.now) };

    /// Whether an entry may be the first one of a page whose key is this place.
    fn fits(&self, low: &Self::Bound, x: &Self::Entry) -> bool
        ensures { result ≡ Self.scale.fits (place low.now) x.now };

    /// The place of a key.
    fn at_key(&self, key: &Self::Key) -> Self::Bound
        ensures { place result ≡ key.now };

    /// Moves the place behind an entry.
    fn pass(&self, x: &Self::Entry, low: &mut Self::Bound)
        ensures { place low.new ≡ Self.scale.to x.now };
}
