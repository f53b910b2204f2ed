//! The pages of extent trees, entry by entry.

ghost use Rattle.std.specs.Prelude.{◌≡◌, ◌<◌, ◌+◌, ◌*◌, ◌-◌, ◌^◌, ◌==◌, ◌||◌, nat_le, length, slice_get, Some};
ghost use Rattle.jfs_xtpage.specs.Page.{end_of};
ghost use Rattle.jfs_xtree.specs.Extents.{next_block};

use crate::check::{check_page, is_leaf};
use crate::children::page_of;
use crate::form::XtPages;
use crate::place::length_of;
use jfs_bits::{Pxd, Rule, Xad};
use jfs_tree::{PageRead, Shape, Sibling};
use jfs_xtpage::xt_entry;

/// How far a walk through the extents of a file has come: to a block of the file, or to the one behind an extent.
#[derive(Clone, Copy, PartialEq, Eq, Debug)]
pub enum Reached {
    At(u64),
    Behind(Xad),
}

impl Reached {
    /// Whether a block isn't before the place.
    fn admits(&self, offset: u64) -> bool
        ensures { result ≡ nat_le (next_block self.now) offset }
    {
        match self {
            Reached::At(key) => *key <= offset,
            Reached::Behind(x) => x.offset <= offset && offset - x.offset >= length_of(x),
        }
    }

    /// Whether the place is this block.
    fn is_at(&self, offset: u64) -> bool
        ensures { result ≡ (next_block self.now == offset) }
    {
        match self {
            Reached::At(key) => *key == offset,
            Reached::Behind(x) => x.offset <= offset && offset - x.offset == length_of(x),
        }
    }
}

impl PageRead for XtPages {
    type Bound = Reached;

    ghost place = { next_block };

    fn shape(&self, bytes: &[u8]) -> Result<Shape, Rule> {
        let head = check_page(bytes, self.form, self.blocks)?;
        let count = usize::from(head.nextindex - 2);
        if is_leaf(head.flag) {
            return Ok(Shape::Leaf(count));
        }
        Ok(Shape::Inner(count))
    }

    fn any_entry(&self) -> Xad {
        Xad {
            flag: 0,
            offset: 0,
            at: Pxd { len: 0, addr: 0 },
        }
    }

    fn read_entry(&self, bytes: &[u8], i: usize, x: &mut Xad) {
        *x = xt_entry(bytes, i as u16);
    }

    fn child(&self, bytes: &[u8], i: usize) -> Sibling<u64> {
        let place = i as u16;
        Sibling {
            key: xt_entry(bytes, place).offset,
            page: page_of(bytes, place, self.blocks),
        }
    }

    fn least(&self) -> Reached {
        Reached::At(0)
    }

    fn takes_key(&self, low: &Reached, key: &u64) -> bool {
        low.admits(*key)
    }

    fn takes_entry(&self, low: &Reached, x: &Xad) -> bool {
        low.admits(x.offset)
    }

    fn fits(&self, low: &Reached, x: &Xad) -> bool {
        low.is_at(0) || low.is_at(x.offset)
    }

    fn at_key(&self, key: &u64) -> Reached {
        Reached::At(*key)
    }

    fn pass(&self, x: &Xad, low: &mut Reached) {
        *low = Reached::Behind(*x);
    }
}
