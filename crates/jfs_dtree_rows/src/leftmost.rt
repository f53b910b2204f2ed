//! The first keys on the way from the root down the first children, as the bytes of the pages have them: each is empty, after each call.

ghost use Rattle.std.specs.Prelude.{◌≤◌};

use crate::facts::Fact::{FirstKeys, Lists, Pages};
use crate::steps::Step::{self, AddAll, AddDown, Is, RemoveAll};
use crate::steps::{held, held_of};
use crate::units::Kind::{self, Long};
use crate::units::name_of;
use crate::volume::Dir;
use crate::way::{first_keys, is_trimmed};
use std::alloc::Global;
use std::test::*;

/// The page of the root's first child.
fn below_root(dir: &Dir) -> usize {
    usize::from(dir.root[32 * usize::from(dir.root[24].min(8)) + 4])
}

/// A byte of a page's entry at a place: the child's page is at 4, the number of its key's units at 9.
fn of_entry(dir: &Dir, page: usize, place: usize, at: usize) -> u8
    requires { (place ≤ 1) × (at ≤ 9) }
{
    dir.byte(page, 32 * usize::from(dir.byte(page, 32 + place)) + at)
}

/// The first two children of the root's first child, and how many units the first key of the second has.
fn children(dir: &Dir) -> (u8, u8, u8) {
    let high = below_root(dir);
    let right = of_entry(dir, high, 1, 4);
    (
        of_entry(dir, high, 0, 4),
        right,
        of_entry(dir, usize::from(right), 0, 9),
    )
}

// leaves of 7 names, and inner pages of 8 children: the root, one page, four pages, 29 leaves
static GROWN: [Step; 2] = [AddAll(Long, 0, 200), Is(FirstKeys(3, 0))];

// the first leaf goes, and its page stays
static LEAF_GONE: [Step; 2] = [RemoveAll(Long, 0, 7), Is(FirstKeys(3, 0))];

// the first inner page goes with its last leaf, and the next one is on the way then
static PAGE_GONE: [Step; 2] = [RemoveAll(Long, 7, 56), Is(FirstKeys(3, 0))];

// names before all others, and then the rest goes
static ALL_GONE: [Step; 8] = [
    AddAll(Long, 30, 31),
    AddAll(Long, 20, 21),
    Is(Lists(true)),
    RemoveAll(Long, 20, 21),
    RemoveAll(Long, 30, 31),
    RemoveAll(Long, 56, 200),
    Is(FirstKeys(0, 0)),
    Is(Pages(0)),
];

#[test]
fn first_children_go(rt: HostRuntime) {
    let mut dir = Dir::new(rt.alloc()).expect(&rt, "memory");
    assert!(rt; held_of(rt.alloc(), &mut dir, &GROWN) == 2);
    let (left, right, units) = children(&dir);
    // a page that isn't on the way has its first key whole
    assert!(rt; units == 241);
    assert!(rt; held_of(rt.alloc(), &mut dir, &LEAF_GONE) == 2);
    assert!(rt; children(&dir) == (left, right, 241));
    assert!(rt; held_of(rt.alloc(), &mut dir, &PAGE_GONE) == 2);
    assert!(rt; has_first(&dir, right));
    assert!(rt; held_of(rt.alloc(), &mut dir, &ALL_GONE) == 8);
}

/// Whether this page is the first child of the root's first child, and its first key is empty.
fn has_first(dir: &Dir, page: u8) -> bool {
    of_entry(dir, below_root(dir), 0, 4) == page && of_entry(dir, usize::from(page), 0, 9) == 0
}

static BEFORE_OTHERS: [Step; 4] = [
    AddDown(Long, 150, 150),
    RemoveAll(Long, 0, 60),
    AddDown(Long, 60, 60),
    Is(Lists(true)),
];

#[test]
fn names_before_others(rt: HostRuntime) {
    assert!(rt; held(rt.alloc(), &BEFORE_OTHERS) == 4);
}

/// Adds or removes one of the names of 1 to 255 units; whether the leftmost way is trimmed then.
fn is_trimmed_with(alloc: Global, dir: &mut Dir, k: u32, inode: u32, added: bool) -> bool {
    let Ok(name) = name_of(alloc, &Kind::Mixed, k) else {
        return false;
    };
    if added {
        let _answer = dir.adds(alloc, name, inode);
    } else {
        let _answer = dir.removes(alloc, &name);
    }
    is_trimmed(dir)
}

/// Whether so many calls leave it trimmed, and then the list is as it should be.
fn changes(alloc: Global, dir: &mut Dir, seed: u32, calls: u32) -> bool {
    let mut state = seed;
    for _ in 0..calls {
        state = state.wrapping_mul(1103515245).wrapping_add(12345);
        let added = state / 65536 % 2 == 0;
        if !is_trimmed_with(alloc, dir, state / 256 % 510, state, added) {
            return false;
        }
    }
    dir.lists(alloc)
}

/// Whether it stays so until each of the names is removed.
fn empties(alloc: Global, dir: &mut Dir) -> bool {
    for k in 0..510u32 {
        if !is_trimmed_with(alloc, dir, k, 0, false) {
            return false;
        }
    }
    true
}

#[test]
fn names_in_mixed_order(rt: HostRuntime) {
    let mut dir = Dir::new(rt.alloc()).expect(&rt, "memory");
    assert!(rt; changes(rt.alloc(), &mut dir, 7, 600));
    assert!(rt; first_keys(&dir).0 >= 2);
    assert!(rt; empties(rt.alloc(), &mut dir));
    assert!(rt; dir.pages() == 0);
}
