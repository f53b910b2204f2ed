//! Names of 1 to 255 units with long fronts in common, added and removed in mixed order, beside the plain list.

use crate::calls::find_plain;
use crate::units::{Kind, name_of};
use crate::volume::Dir;
use crate::way::is_linked;
use jfs_dtree::DtError;
use std::alloc::Global;
use std::test::*;

/// Whether name `k` is added exactly where the plain list doesn't have it, and all pages are linked then.
fn adds(alloc: Global, dir: &mut Dir, k: u32) -> bool {
    let Ok(name) = name_of(alloc, &Kind::Mixed, k) else {
        return false;
    };
    let expected = match dir.inode_of(name.as_slice()) {
        Some(_) => Err(DtError::Exists),
        None => Ok(()),
    };
    dir.adds(alloc, name, k) == expected && is_linked(dir)
}

/// Whether name `k` is removed exactly where the plain list has it, for the same inode, and all pages are linked then.
fn removes(alloc: Global, dir: &mut Dir, k: u32) -> bool {
    let Ok(name) = name_of(alloc, &Kind::Mixed, k) else {
        return false;
    };
    let expected = match dir.inode_of(name.as_slice()) {
        Some(inode) => Ok(inode),
        None => Err(DtError::Missing),
    };
    dir.removes(alloc, &name) == expected && is_linked(dir)
}

/// Whether the tree finds for each third name what the plain list has.
fn agrees(alloc: Global, dir: &mut Dir) -> bool {
    for k in 0..170u32 {
        if !find_plain(alloc, dir, &Kind::Mixed, k.saturating_mul(3)) {
            return false;
        }
    }
    dir.lists(alloc)
}

/// Whether names are added at places `from` to `to` of the order, and then all agree.
fn adds_some(alloc: Global, dir: &mut Dir, from: u32, to: u32) -> bool {
    for i in from..to {
        if !adds(alloc, dir, i.saturating_mul(173) % 510) {
            return false;
        }
    }
    agrees(alloc, dir)
}

/// Whether names are removed at places `from` to `to` of another order, and then all agree.
fn removes_some(alloc: Global, dir: &mut Dir, from: u32, to: u32) -> bool {
    for i in from..to {
        if !removes(alloc, dir, i.saturating_mul(91) % 510) {
            return false;
        }
    }
    agrees(alloc, dir)
}

/// Whether so many calls, of which each adds or removes one of the names, are done as in the plain list, and then all agree.
fn changes_some(alloc: Global, dir: &mut Dir, seed: u32, calls: u32) -> bool {
    let mut state = seed;
    for _ in 0..calls {
        state = state.wrapping_mul(1103515245).wrapping_add(12345);
        let k = state / 256 % 510;
        let done = if state / 65536 % 2 == 0 {
            adds(alloc, dir, k)
        } else {
            removes(alloc, dir, k)
        };
        if !done {
            return false;
        }
    }
    agrees(alloc, dir)
}

/// Whether all agree while names come and go.
fn grows(alloc: Global, dir: &mut Dir) -> bool {
    adds_some(alloc, dir, 0, 60)
        && removes_some(alloc, dir, 0, 100)
        && adds_some(alloc, dir, 40, 200)
        && changes_some(alloc, dir, 1, 150)
}

/// Whether each page that was taken is free again.
fn is_free(dir: &Dir) -> bool {
    dir.plain.is_empty() && dir.told.free == dir.told.taken && dir.told.ended == dir.told.taken
}

#[test]
fn names_in_mixed_order(rt: HostRuntime) {
    let mut dir = Dir::new(rt.alloc()).expect(&rt, "memory");
    assert!(rt; grows(rt.alloc(), &mut dir));
    assert!(rt; dir.told.left == dir.told.taken && dir.pages() >= 20);
    assert!(rt; removes_some(rt.alloc(), &mut dir, 0, 510));
    assert!(rt; is_free(&dir));
}
