//! The inode extents that a transaction adds.

ghost use Rattle.std.specs.Prelude.{◌≡◌, ◌≤◌, [], true, length};
ghost use Rattle.jfs_data_steps.specs.steps.specs.After.{is_extent, place_in};
ghost use Rattle.jfs_marks.specs.Founded.{FitsFounded, founded_by, founded_in};

use jfs_bits::{PageKind, get_u32};
use jfs_ranges::Edit;

/// A new inode extent: its place in the inode map, which is that of its first inode's number, and its first page.
#[derive(Clone, Copy, PartialEq, Eq, Debug)]
pub struct NewExtent {
    pub place: u32,
    pub first: u32,
}

/// None, one, or more than one.
#[derive(Clone, Copy, PartialEq, Eq, Debug)]
pub enum Founded {
    Nothing,
    One(NewExtent),
    Several,
}

/// The inode extents that edits add.
pub(crate) fn founded_in(edits: &[Edit]) -> Founded
    ensures value { result ≡ founded_in edits.now }
    ensures small { FitsFounded result }
{
    let mut founded = Founded::Nothing;
    for edit in edits {
        founded = founded_by(edit, founded);
    }
    founded
}

/// With one more edit.
fn founded_by(edit: &Edit, founded: Founded) -> Founded
    requires { FitsFounded founded }
    ensures value { result ≡ founded_by edit.now founded }
    ensures small { FitsFounded result }
{
    if let Edit::Lines {
        page,
        kind,
        first,
        bytes,
    } = edit
    {
        if is_extent(*kind, *first, bytes.as_slice()) {
            return match founded {
                Founded::Nothing => Founded::One(NewExtent {
                    place: place_in(bytes.as_slice()),
                    first: *page,
                }),
                Founded::One(_) | Founded::Several => Founded::Several,
            };
        }
    }
    founded
}

/// Whether lines are a new inode extent: four pages of inodes from their first line on.
pub(crate) fn is_extent(kind: PageKind, first: u32, bytes: &[u8]) -> bool
    ensures value { result ≡ is_extent kind first bytes.now }
    ensures long { result ≡ true → length bytes.now ≡ 16384 }
{
    match kind {
        PageKind::Inode => first == 0 && bytes.len() == 16_384,
        PageKind::Xtree | PageKind::Dtree | PageKind::Index => false,
    }
}

/// The place of an inode extent with these bytes: 32 numbers a place.
pub(crate) fn place_in(bytes: &[u8]) -> u32
    requires { 12 ≤ length bytes.now }
    ensures { result ≡ place_in bytes.now }
{
    get_u32(bytes, 8) / 32
}
