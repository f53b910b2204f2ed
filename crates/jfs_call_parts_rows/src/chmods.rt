//! Changes of a mode of the root directory.

use crate::volume::{BLOCKS, MADE, formatted, map_at};
use jfs_bits::Moment;
use jfs_chmod::change_mode;
use jfs_disk::{Disk, Page, Part, SureDisk};
use jfs_imap::InodeMap;
use jfs_inode::read_dinode;
use jfs_name::Path;
use jfs_ranges::{PageView, Tx, apply};
use jfs_reader::DiskView;
use std::alloc::Global;
use std::test::*;

/// The transaction of a change of the root's mode.
fn changed<V: PageView>(
    alloc: Global,
    view: &mut V,
    map: &InodeMap,
    mode: u32,
    now: Moment,
) -> Option<Tx> {
    if mode >= 4096 {
        return None;
    }
    let path = Path::new(alloc);
    change_mode(alloc, view, map, path.as_slice(), mode, now).ok()
}

/// Page 29 of a view.
fn inodes_page<V: PageView>(view: &mut V) -> Option<Page> {
    if view.blocks() <= 29 {
        return None;
    }
    match view.page(29) {
        Ok(page) => Some(Page(page.0)),
        Err(_) => None,
    }
}

/// How many edits a change of the root's mode has, and mode and time of the inode after it.
fn came(
    alloc: Global,
    disk: &mut SureDisk,
    map: &InodeMap,
    mode: u32,
    now: Moment,
) -> Option<(usize, u32, Moment)> {
    if disk.pages() < BLOCKS {
        return None;
    }
    let mut view = DiskView::new(disk, Part::Whole, BLOCKS);
    let tx = changed(alloc, &mut view, map, mode, now)?;
    let mut page = inodes_page(&mut view)?;
    apply(&tx, 29, &mut page);
    let inode = read_dinode(&page, 2, 2).ok()?;
    Some((tx.len(), inode.mode % 4096, inode.ctime))
}

const LATER: Moment = Moment { sec: 2000, nano: 9 };

/// A mode, when it is changed, and the number of edits: the old mode is 0755.
static ROWS: [(u32, Moment, usize); 4] = [
    (0o755, MADE, 0),
    (0o755, LATER, 1),
    (0o700, MADE, 1),
    (0o7777, LATER, 1),
];

// One line of the inode's page changes, or none where mode and time are the old ones.
#[test]
fn a_mode_is_changed(rt: HostRuntime) {
    let alloc = rt.alloc();
    let mut disk = formatted(alloc).expect(&rt, "a volume");
    let map = map_at(alloc, 29, 0xf000_0000).expect(&rt, "memory");
    for (mode, now, edits) in ROWS.iter() {
        let came = came(alloc, &mut disk, &map, *mode, *now);
        assert!(rt; came == Some((*edits, *mode, *now)));
    }
}
