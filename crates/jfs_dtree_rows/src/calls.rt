//! Names added, removed and found.

use crate::units::{Kind, name_of};
use crate::volume::Dir;
use crate::way::{is_linked, is_trimmed};
use jfs_dtree::DtError;
use std::alloc::Global;

/// Whether the name is added for this inode.
pub fn adds(alloc: Global, dir: &mut Dir, kind: &Kind, number: u32, inode: u32) -> bool {
    match name_of(alloc, kind, number) {
        Ok(name) => dir.adds(alloc, name, inode).is_ok(),
        Err(_) => false,
    }
}

/// Whether the name isn't added for this reason.
pub fn add_fails(alloc: Global, dir: &mut Dir, kind: &Kind, number: u32, why: DtError) -> bool {
    match name_of(alloc, kind, number) {
        Ok(name) => dir.refuses(alloc, &name, why),
        Err(_) => false,
    }
}

/// Whether the name is removed, and was this inode's.
pub fn removes(alloc: Global, dir: &mut Dir, kind: &Kind, number: u32, inode: u32) -> bool {
    match name_of(alloc, kind, number) {
        Ok(name) => dir.removes(alloc, &name) == Ok(inode),
        Err(_) => false,
    }
}

/// Whether the name isn't removed for this reason.
pub fn remove_fails(alloc: Global, dir: &mut Dir, kind: &Kind, number: u32, why: DtError) -> bool {
    match name_of(alloc, kind, number) {
        Ok(name) => dir.keeps(alloc, &name, why),
        Err(_) => false,
    }
}

/// Whether this inode is found for the name, or none.
pub fn finds(alloc: Global, dir: &mut Dir, kind: &Kind, number: u32, inode: Option<u32>) -> bool {
    match name_of(alloc, kind, number) {
        Ok(name) => dir.find(&name) == Ok(inode),
        Err(_) => false,
    }
}

/// Whether the name isn't looked for to the end, for this reason.
pub fn find_fails(alloc: Global, dir: &mut Dir, kind: &Kind, number: u32, why: DtError) -> bool {
    match name_of(alloc, kind, number) {
        Ok(name) => dir.find(&name) == Err(why),
        Err(_) => false,
    }
}

/// Whether the names with numbers from `from` up to `to` are added, the lowest first, and the leftmost way is trimmed and all pages are linked after each.
pub fn add_all(alloc: Global, dir: &mut Dir, kind: &Kind, from: u32, to: u32) -> bool {
    for number in from..to {
        if !adds(alloc, dir, kind, number, number) || !is_trimmed(dir) || !is_linked(dir) {
            return false;
        }
    }
    true
}

/// Whether `count` names with numbers below `end` are added, the highest first, and the leftmost way is trimmed and all pages are linked after each.
pub fn add_down(alloc: Global, dir: &mut Dir, kind: &Kind, end: u32, count: u32) -> bool {
    for k in 0..count {
        let number = end.saturating_sub(1 + k);
        if !adds(alloc, dir, kind, number, number) || !is_trimmed(dir) || !is_linked(dir) {
            return false;
        }
    }
    true
}

/// Whether the names with numbers from `from` up to `to` are removed, the lowest first, and the leftmost way is trimmed and all pages are linked after each.
pub fn remove_all(alloc: Global, dir: &mut Dir, kind: &Kind, from: u32, to: u32) -> bool {
    for number in from..to {
        if !removes(alloc, dir, kind, number, number) || !is_trimmed(dir) || !is_linked(dir) {
            return false;
        }
    }
    true
}

/// Whether the names with numbers below `end` are found or not, and all are listed, as the plain list has them.
pub fn find_all(alloc: Global, dir: &mut Dir, kind: &Kind, end: u32) -> bool {
    for number in 0..end {
        if !find_plain(alloc, dir, kind, number) {
            return false;
        }
    }
    dir.lists(alloc)
}

/// Whether the tree finds for the name what the plain list has.
pub fn find_plain(alloc: Global, dir: &mut Dir, kind: &Kind, number: u32) -> bool {
    match name_of(alloc, kind, number) {
        Ok(name) => dir.finds(&name),
        Err(_) => false,
    }
}
