//! What is so of a directory.

use crate::leading::answers_deep;
use crate::refusals::{fault, read_fault};
use crate::units::Kind;
use crate::volume::{Dir, Told};
use crate::way::first_keys;
use jfs_dtree::{DtError, parent};
use std::alloc::Global;

/// What is so.
pub enum Fact {
    /// A page has this byte at a place.
    Byte(usize, usize, u8),
    /// The root has this byte at a place.
    Root(u8, u8),
    /// The root's entry at a place has this child, and a key of so many units, of which this is the last.
    Child(usize, u8, u8, u8),
    /// The tree has so many pages.
    Pages(u32),
    /// So many pages' records aren't to be redone.
    Ended(u32),
    /// So many inner pages stand on the leftmost way, and their first keys have so many units.
    FirstKeys(u32, u32),
    /// This was told.
    Told(Told),
    /// The number of the root's parent.
    Parent(u32),
    /// The tree lists the names of the plain list, or not.
    Lists(bool),
    /// The names aren't listed, for this reason.
    ListFails(DtError),
    /// They aren't, by the fault of this number.
    ListFault(u64),
    /// So many pages were read for the last list of names.
    Reads(u64),
    /// The directory is too deep for the name, or not.
    Deep(Kind, u32, bool),
    /// Whether it is isn't told, by the fault of this number.
    DeepFault(Kind, u32, u64),
}

/// Whether it is so.
pub fn is_so(alloc: Global, dir: &mut Dir, fact: &Fact) -> bool {
    match fact {
        Fact::Byte(page, at, byte) => dir.byte(*page, *at) == *byte,
        Fact::Root(at, byte) => dir.root[usize::from(*at)] == *byte,
        Fact::Child(place, page, units, last) => child(dir, *place) == (*page, *units, *last),
        Fact::Pages(pages) => dir.pages() == *pages,
        Fact::Ended(pages) => dir.told.ended == *pages,
        Fact::FirstKeys(pages, units) => first_keys(dir) == (*pages, *units),
        Fact::Told(told) => dir.told == *told,
        Fact::Parent(inode) => parent(&dir.root) == *inode,
        Fact::Lists(whether) => dir.lists(alloc) == *whether,
        Fact::ListFails(why) => dir.list_fails(alloc, *why),
        Fact::ListFault(count) => dir.list_fails(alloc, fault(*count)),
        Fact::Reads(reads) => dir.volume.reads == *reads,
        Fact::Deep(kind, number, deep) => answers_deep(alloc, dir, kind, *number, Ok(*deep)),
        Fact::DeepFault(kind, number, count) => {
            answers_deep(alloc, dir, kind, *number, Err(read_fault(*count)))
        }
    }
}

/// The child of the root's entry at a place, the number of units of its key, and the last of these.
fn child(dir: &Dir, place: usize) -> (u8, u8, u8) {
    let at = 32 * usize::from(dir.root[24 + place.min(7)].min(8));
    let units = dir.root[at + 9];
    (
        dir.root[at + 4],
        units,
        dir.root[at + 8 + 2 * usize::from(units.min(11))],
    )
}
