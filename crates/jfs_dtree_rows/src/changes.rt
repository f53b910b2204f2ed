//! Bytes of trees changed by hand.

ghost use Rattle.std.specs.Prelude.{◌≤◌};

use crate::volume::Dir;
use jfs_dtree::new_root;

/// A change of bytes.
pub enum Change {
    /// A byte of a page.
    Put(usize, usize, u8),
    /// A byte of the root.
    PutRoot(u8, u8),
    /// A page's first two entries change places.
    Swap(usize),
    /// The first page goes over the second one.
    Copy(usize, usize),
    /// A page becomes an inner page without children.
    Empty(usize),
    /// The root becomes one without names.
    Clear,
    /// This page can't be read.
    Lose(u32),
    /// So many levels come below page 2.
    Deepen(u8),
    /// So many levels come below page 2, and all eight children of each page there are one: the next page, or the first leaf.
    DeepenAlone(u8),
}

/// Does a change.
pub fn make_change(dir: &mut Dir, what: &Change) {
    match what {
        Change::Put(page, at, byte) => dir.puts(*page, *at, *byte),
        Change::PutRoot(at, byte) => dir.root[usize::from(*at)] = *byte,
        Change::Swap(page) => dir.swaps(*page),
        Change::Copy(from, to) => dir.copies(*from, *to),
        Change::Empty(page) => dir.empties(*page),
        Change::Clear => dir.clears(),
        Change::Lose(page) => dir.volume.bad = *page,
        Change::Deepen(copies) => deepen(dir, (*copies).min(100)),
        Change::DeepenAlone(copies) => deepen_alone(dir, (*copies).min(100)),
    }
}

/// The pages 100 and following become copies of page 2, which has 8 children; the last child of each is now the next one, and of the last
/// one the last leaf, which is page 8.
fn deepen(dir: &mut Dir, copies: u8)
    requires { copies ≤ 100 }
{
    for k in 0..copies {
        let next = if k + 1 < copies { 101 + k } else { 8 };
        dir.copies(2, 100 + usize::from(k));
        dir.puts(100 + usize::from(k), 3460, next);
    }
    dir.puts(2, 3460, 100);
}

/// The same pages, but that all children of page 2 are page 100, those of each page behind it are the next one, and those of the last one the first leaf, which is page 0.
fn deepen_alone(dir: &mut Dir, copies: u8)
    requires { copies ≤ 100 }
{
    deepen(dir, copies);
    let first = if copies > 0 { 100 } else { 0 };
    unite(dir, 2, first);
    for k in 0..copies {
        let next = if k + 1 < copies { 101 + k } else { 0 };
        unite(dir, 100 + usize::from(k), next);
    }
}

/// All eight children of a page become this one.
fn unite(dir: &mut Dir, page: usize, child: u8) {
    let table = 32 * usize::from(dir.byte(page, 21));
    for i in 0..8 {
        let slot = usize::from(dir.byte(page, table + i));
        dir.puts(page, 32 * slot + 4, child);
    }
}
