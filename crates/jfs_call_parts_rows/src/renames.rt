//! The steps of a rename, and the two transactions that are made of them.

ghost use Rattle.std.specs.Prelude.{◌≡◌, ◌<◌, ◌≤◌, IfSome};
ghost use Rattle.jfs_inode.specs.Inode.{FitsDinode};

use crate::volume::{
    BLOCKS, append, eight, freed_by, is_short, map_of_objects, name_of, page_of, path_of,
    volume_of_objects,
};
use jfs_bits::{Moment, get_u32};
use jfs_data_steps::DataList;
use jfs_disk::{Disk, Part, SureDisk};
use jfs_imap::InodeMap;
use jfs_inode::inode_in;
use jfs_ranges::{PageView, Tx};
use jfs_reader::{DiskView, names_of};
use jfs_rename_steps::{
    Leaving, Moving, arrive, displace, free_if_gone, gain_entry, lead_entry, leave, lose_entry,
    move_over, move_to_free,
};
use jfs_steps::Gain;
use jfs_way::{Held, walk};
use std::alloc::Global;
use std::test::*;

const NOW: Moment = Moment { sec: 2000, nano: 9 };

/// The object at the end of a path of one unit, or the root directory.
fn held<V: PageView>(alloc: Global, view: &mut V, map: &InodeMap, unit: u16) -> Option<Held>
    ensures count { V.PageView.block_count view.new ≡ V.PageView.block_count view.old }
    ensures page { IfSome result (λ at. at.page < V.PageView.block_count view.old) }
    ensures fits { IfSome result (λ at. FitsDinode at.inode) }
    ensures few { IfSome result (λ at. at.inode.nlink ≤ 65535) }
{
    let path = path_of(alloc, unit)?;
    let path = path.as_slice();
    if !is_short(path) {
        return None;
    }
    match walk(view, map, path) {
        Ok(at) if at.inode.nlink <= 65_535 => Some(at),
        _ => None,
    }
}

/// The root directory gains the name `c` of the file.
fn gained<V: PageView>(alloc: Global, view: &mut V, map: &InodeMap) -> Option<Tx> {
    if view.blocks() < BLOCKS {
        return None;
    }
    let root = held(alloc, view, map, 0)?;
    let name = name_of(alloc, 99)?;
    let mut fresh = eight(alloc).ok()?;
    let gain = Gain {
        inode: 4,
        links: 3,
        now: NOW,
    };
    match gain_entry(alloc, view, &root, &name, gain, &mut fresh) {
        Ok(after) => Some(after.tx),
        Err(_) => None,
    }
}

/// The root directory's name `b` leads to the file.
fn led<V: PageView>(alloc: Global, view: &mut V, map: &InodeMap) -> Option<Tx> {
    let root = held(alloc, view, map, 0)?;
    let name = name_of(alloc, 98)?;
    let mut tx = Tx::new(alloc);
    match lead_entry(alloc, view, &root, &name, 4, NOW, &mut tx) {
        Ok(_) => Some(tx),
        Err(_) => None,
    }
}

/// The root directory loses the name `a`.
fn lost<V: PageView>(alloc: Global, view: &mut V, map: &InodeMap) -> Option<Tx> {
    let root = held(alloc, view, map, 0)?;
    let name = name_of(alloc, 97)?;
    let tx = Tx::new(alloc);
    lose_entry(alloc, view, &root, &name, 3, NOW, &tx).ok()
}

/// The directory `d` comes to itself, and the root directory loses its name.
fn gone<V: PageView>(alloc: Global, view: &mut V, map: &InodeMap) -> Option<Tx> {
    let leaving = Leaving {
        object: held(alloc, view, map, 100)?,
        parent: 6,
        source: held(alloc, view, map, 0)?,
        links: 2,
    };
    let name = name_of(alloc, 100)?;
    leave(alloc, view, &leaving, &name, NOW, Tx::new(alloc)).ok()
}

/// All that the file has is freed, and it loses its only name.
fn displaced<V: PageView>(alloc: Global, view: &mut V, map: &InodeMap) -> Option<Tx> {
    let old = held(alloc, view, map, 97)?;
    let mut tx = match free_if_gone(alloc, view, &old) {
        Ok(tx) => tx,
        Err(_) => return None,
    };
    match displace(alloc, view, &old, NOW, &mut tx) {
        Ok(()) => Some(tx),
        Err(_) => None,
    }
}

/// The directory `d` comes to a directory 2.
fn arrived<V: PageView>(alloc: Global, view: &mut V, map: &InodeMap) -> Option<Tx> {
    let object = held(alloc, view, map, 100)?;
    let mut tx = Tx::new(alloc);
    match arrive(alloc, view, &object, 2, NOW, &mut tx) {
        Ok(()) => Some(tx),
        Err(_) => None,
    }
}

/// The file gets a name `c`, in the directory at the end of a path of one unit, or the root directory.
fn moved<V: PageView>(alloc: Global, view: &mut V, map: &InodeMap, unit: u16) -> Option<Tx> {
    if view.blocks() < BLOCKS {
        return None;
    }
    let moving = Moving {
        object: held(alloc, view, map, 97)?,
        source: held(alloc, view, map, 0)?,
        target: held(alloc, view, map, unit)?,
    };
    let old = name_of(alloc, 97)?;
    let new = name_of(alloc, 99)?;
    let mut fresh = eight(alloc).ok()?;
    move_to_free(alloc, view, &moving, &old, &new, NOW, &mut fresh).ok()
}

/// The object named by one unit takes the place of another, in the root directory.
fn moved_over<V: PageView>(
    alloc: Global,
    view: &mut V,
    map: &InodeMap,
    from: u16,
    to: u16,
) -> Option<Tx> {
    let moving = Moving {
        object: held(alloc, view, map, from)?,
        source: held(alloc, view, map, 0)?,
        target: held(alloc, view, map, 0)?,
    };
    let there = held(alloc, view, map, to)?;
    let old = name_of(alloc, from)?;
    let new = name_of(alloc, to)?;
    move_over(alloc, view, &moving, &there, &old, &new, NOW).ok()
}

/// Which transaction.
#[derive(Clone, Copy)]
enum Step {
    Gain,
    Lead,
    Lose,
    Leave,
    Displace,
    Arrive,
    ToRoot,
    ToDirectory,
    OverLink,
    OverFile,
}

fn made<V: PageView>(alloc: Global, view: &mut V, map: &InodeMap, step: Step) -> Option<Tx> {
    match step {
        Step::Gain => gained(alloc, view, map),
        Step::Lead => led(alloc, view, map),
        Step::Lose => lost(alloc, view, map),
        Step::Leave => gone(alloc, view, map),
        Step::Displace => displaced(alloc, view, map),
        Step::Arrive => arrived(alloc, view, map),
        Step::ToRoot => moved(alloc, view, map, 0),
        Step::ToDirectory => moved(alloc, view, map, 100),
        Step::OverLink => moved_over(alloc, view, map, 97, 98),
        Step::OverFile => moved_over(alloc, view, map, 98, 97),
    }
}

fn done(alloc: Global, disk: &mut SureDisk, step: Step) -> Option<Tx> {
    let map = map_of_objects(alloc).ok()?;
    if disk.pages() < BLOCKS {
        return None;
    }
    let mut view = DiskView::new(disk, Part::Whole, BLOCKS);
    made(alloc, &mut view, &map, step)
}

/// What a transaction leaves: of the root directory how many names it has and the sum of their inodes, how many names `d` has and its parent, the links of the root directory and of inodes 4 to 6, and how many blocks are freed.
#[derive(Clone, Copy, PartialEq, Eq)]
struct Left {
    root: (usize, u32),
    sub: (usize, u32),
    links: [u32; 4],
    freed: u32,
}

fn left_by(alloc: Global, disk: &mut SureDisk, tx: &Tx) -> Option<Left> {
    if !append(disk, &DataList::new(alloc), tx) {
        return None;
    }
    let page = page_of(disk, 29);
    let root = inode_in(&page, 2);
    let sub = inode_in(&page, 6);
    if disk.pages() < BLOCKS {
        return None;
    }
    let mut view = DiskView::new(disk, Part::Whole, BLOCKS);
    let names = names_of(alloc, &mut view, &root).ok()?;
    let mut sum = 0u32;
    for entry in names.as_slice() {
        sum = sum.saturating_add(entry.inode);
    }
    let below = names_of(alloc, &mut view, &sub).ok()?;
    Some(Left {
        root: (names.len(), sum),
        sub: (below.len(), get_u32(&sub.rest, 116)),
        links: [
            root.nlink,
            inode_in(&page, 4).nlink,
            inode_in(&page, 5).nlink,
            sub.nlink,
        ],
        freed: freed_by(tx),
    })
}

fn came(alloc: Global, step: Step) -> Option<Left> {
    let mut disk = volume_of_objects(alloc)?;
    let tx = done(alloc, &mut disk, step)?;
    left_by(alloc, &mut disk, &tx)
}

const LINKS: [u32; 4] = [3, 1, 1, 2];

/// A step, and what it leaves, in the order of `Left`. The names `a`, `b` and `d` lead to the inodes 4, 5 and 6.
#[rattlefmt::skip]
static ROWS: [(Step, (usize, u32), (usize, u32), [u32; 4], u32); 10] = [
    (Step::Gain, (4, 19), (0, 2), LINKS, 0),
    (Step::Lead, (3, 14), (0, 2), LINKS, 0),
    (Step::Lose, (2, 11), (0, 2), LINKS, 0),
    (Step::Leave, (2, 9), (0, 6), [2, 1, 1, 2], 0),
    (Step::Displace, (3, 15), (0, 2), [3, 0, 1, 2], 5),
    (Step::Arrive, (3, 15), (0, 2), LINKS, 0),
    (Step::ToRoot, (3, 15), (0, 2), LINKS, 0),
    (Step::ToDirectory, (2, 11), (1, 2), LINKS, 0),
    (Step::OverLink, (2, 10), (0, 2), [3, 1, 0, 2], 0),
    (Step::OverFile, (2, 11), (0, 2), [3, 0, 1, 2], 5),
];

#[test]
fn steps_leave(rt: HostRuntime) {
    for (i, (step, root, sub, links, freed)) in ROWS.iter().enumerate() {
        let wanted = Left {
            root: *root,
            sub: *sub,
            links: *links,
            freed: *freed,
        };
        assert!(rt; came(rt.alloc(), *step) == Some(wanted), "row {i}");
    }
}
