//! Volumes that runs left, behind fronts of scripts.

ghost use Rattle.jfs_script.specs.Script.{AllFit};

use crate::same::{MOST, front_of};
use crate::scripts::{ALL_KINDS, FIRST, busy};
use crate::volume::{is_redone, is_sound, is_unmounted, left, lines_of, pages_of};
use jfs_disk::MemDisk;
use jfs_image::tree_of;
use jfs_plain::{Line, PlainTree};
use std::alloc::Global;
use std::sync::Wait;
use std::test::*;
use std::thread::Threads;

/// The tree of a volume once it is redone, where a check then finds nothing.
pub fn redone_tree(alloc: Global, disk: MemDisk) -> Option<PlainTree> {
    let mut disk = disk;
    if !is_redone(alloc, &mut disk) || !is_unmounted(&mut disk) || !is_sound(alloc, &mut disk) {
        return None;
    }
    tree_of(alloc, &pages_of(alloc, &mut disk)?).ok()?
}

/// How many lines a volume holds that is left behind a front of a script, once it is redone; `None` where it isn't the tree after those up to the last one that was told.
fn held<R: Threads + Wait + Sync>(
    rt: &R,
    alloc: Global,
    lines: &[Line],
    count: usize,
) -> Option<usize>
    requires { AllFit lines.now }
{
    let came = left(rt, alloc, lines.get(..count)?, &[])?;
    let tree = redone_tree(alloc, came.disk)?;
    let held = front_of(alloc, lines, came.told, &tree, MOST)?;
    if held == came.told { Some(held) } else { None }
}

/// The lengths of fronts, and how many lines of them are held. What only reads isn't, and what is lazy isn't unless a later call waited.
static FIRST_FRONTS: [(usize, usize); 7] = [(0, 0), (1, 1), (2, 2), (3, 3), (4, 3), (5, 3), (6, 3)];

#[test]
fn fronts_of_a_directory_with_a_file(rt: HostRuntime) {
    let alloc = rt.alloc();
    let lines = lines_of(alloc, FIRST).expect(&rt, "lines");
    for (count, wanted) in FIRST_FRONTS.iter() {
        assert!(rt; held(&rt, alloc, &lines, *count) == Some(*wanted));
    }
    assert!(rt; lines.len() == 6);
}

/// The same of a script of all calls.
static FRONTS: [(usize, usize); 9] = [
    (0, 0),
    (1, 1),
    (3, 3),
    (5, 5),
    (8, 5),
    (9, 9),
    (13, 13),
    (15, 15),
    (19, 18),
];

#[test]
fn fronts_of_a_script_of_all_calls(rt: HostRuntime) {
    let alloc = rt.alloc();
    let lines = lines_of(alloc, ALL_KINDS).expect(&rt, "lines");
    for (count, wanted) in FRONTS.iter() {
        assert!(rt; held(&rt, alloc, &lines, *count) == Some(*wanted));
    }
}

/// The same of the busy script.
static BUSY_FRONTS: [(usize, usize); 16] = [
    (3, 3),
    (9, 9),
    (17, 17),
    (25, 25),
    (30, 30),
    (32, 30),
    (36, 36),
    (37, 37),
    (39, 39),
    (41, 39),
    (43, 43),
    (45, 45),
    (48, 48),
    (52, 52),
    (65, 65),
    (79, 79),
];

#[test]
fn fronts_of_a_busy_script(rt: HostRuntime) {
    let alloc = rt.alloc();
    let text = busy(alloc).expect(&rt, "memory");
    let lines = lines_of(alloc, &text).expect(&rt, "lines");
    for (count, wanted) in BUSY_FRONTS.iter() {
        assert!(rt; held(&rt, alloc, &lines, *count) == Some(*wanted));
    }
    assert!(rt; lines.len() == 79);
}
