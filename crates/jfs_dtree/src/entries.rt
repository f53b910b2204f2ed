//! The pages of directory trees, entry by entry.

ghost use Rattle.std.specs.Prelude.{◌≡◌, ◌<◌, ◌≤◌, ◌+◌, ℕ, List, not, length, slice_get, true, false, Some};
ghost use Rattle.std.specs.Ordering.{is_lt, nat_cmp};
ghost use Rattle.std.specs.Cmp.Lexicographic.{slice_cmp};
ghost use Rattle.jfs_dtpage.specs.Form.{bytes_of, count_of};
ghost use Rattle.jfs_dtpage.specs.Order.{name_at};
ghost use Rattle.jfs_dtpage.specs.Page.{names_of, IsDtPage};
ghost use Rattle.jfs_dtree.specs.Node.{not_after};
ghost use Rattle.jfs_dtree.specs.Reach.{next_name};

use crate::check::check_page;
use crate::entry::{DirEntry, NameKey};
use crate::form::DtPages;
use crate::lead::child_page;
use crate::reached::Reached;
use jfs_bits::Rule;
use jfs_dtpage::{DtForm, dt_name, is_leaf};
use jfs_tree::{PageRead, Shape, Sibling};
use std::cmp::Ordering;

/// Whether a name isn't before the place.
fn admits(low: &Reached, name: &[u16]) -> bool
    ensures { result ≡ not_after (next_name low.now) name.now }
{
    match low {
        Reached::At(key) => !is_before(name, key.units()),
        Reached::Behind(last) => is_before(last.units(), name),
    }
}

fn is_before(one: &[u16], other: &[u16]) -> bool
    ensures { result ≡ is_lt (slice_cmp nat_cmp one.now other.now) }
{
    match one.cmp(&other) {
        Ordering::Less => true,
        Ordering::Equal | Ordering::Greater => false,
    }
}

/// The key at a place of a page.
fn key_at(bytes: &[u8], form: DtForm, place: u32) -> NameKey
    requires size { length bytes.now ≡ bytes_of form }
    requires page { IsDtPage form bytes.now }
    requires place { place < count_of bytes.now }
    ensures { result ≡ name_at (names_of form bytes.now) place }
{
    let mut units = [0u16; 255];
    let count = dt_name(bytes, form, place, &mut units) as usize;
    NameKey::new(&units[..count])
}

impl PageRead for DtPages {
    type Bound = Reached;

    ghost place = { next_name };

    fn shape(&self, bytes: &[u8]) -> Result<Shape, Rule> {
        let head = check_page(bytes, self.form, self.blocks)?;
        let count = usize::from(head.nextindex);
        if is_leaf(bytes) {
            return Ok(Shape::Leaf(count));
        }
        Ok(Shape::Inner(count))
    }

    fn any_entry(&self) -> DirEntry {
        DirEntry::new(&[], 0)
    }

    fn read_entry(&self, bytes: &[u8], i: usize, x: &mut DirEntry) {
        x.read(bytes, self.form, i as u32);
    }

    fn child(&self, bytes: &[u8], i: usize) -> Sibling<NameKey> {
        let place = i as u32;
        Sibling {
            key: key_at(bytes, self.form, place),
            page: child_page(bytes, self.form, place, self.blocks),
        }
    }

    fn least(&self) -> Reached {
        Reached::At(NameKey::new(&[]))
    }

    fn takes_key(&self, low: &Reached, key: &NameKey) -> bool {
        admits(low, key.units())
    }

    fn takes_entry(&self, low: &Reached, x: &DirEntry) -> bool {
        admits(low, x.name())
    }

    fn fits(&self, low: &Reached, x: &DirEntry) -> bool {
        admits(low, x.name())
    }

    fn at_key(&self, key: &NameKey) -> Reached {
        Reached::At(NameKey::new(key.units()))
    }

    fn pass(&self, x: &DirEntry, low: &mut Reached) {
        match low {
            Reached::Behind(last) => last.set(x.name()),
            Reached::At(_) => *low = Reached::Behind(NameKey::new(x.name())),
        }
    }
}
