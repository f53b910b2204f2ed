//! What is told of the root directory of a new volume: mode 0755, two links, the time of the formatting, and no names.

use crate::volume::{BLOCKS, MADE, formatted, map_at};
use jfs_bits::Rule;
use jfs_disk::{Disk, Part, SureDisk};
use jfs_imap::InodeMap;
use jfs_look::{list_names, stat};
use jfs_name::Path;
use jfs_plain::{NodeKind, Refusal, Stat};
use jfs_ranges::PageView;
use jfs_reader::DiskView;
use jfs_tree::NO_PAGE;
use std::alloc::Global;
use std::test::*;

fn root_stat<V: PageView>(alloc: Global, view: &mut V, map: &InodeMap) -> Result<Stat, Refusal> {
    let path = Path::new(alloc);
    stat(view, map, path.as_slice())
}

/// How many names it has.
fn root_names<V: PageView>(alloc: Global, view: &mut V, map: &InodeMap) -> Result<usize, Refusal> {
    let path = Path::new(alloc);
    match list_names(alloc, view, map, path.as_slice()) {
        Ok(names) => Ok(names.len()),
        Err(e) => Err(e),
    }
}

const AT_100: Refusal = Refusal::Damaged {
    page: 100,
    rule: Rule::Fields,
};

const NOWHERE: Refusal = Refusal::Damaged {
    page: NO_PAGE,
    rule: Rule::Fields,
};

const ROOT: Stat = Stat {
    kind: NodeKind::Dir,
    mode: 0o755,
    nlink: 2,
    uid: 0,
    gid: 0,
    size: 0,
    inode: 2,
    mtime: MADE,
};

/// Where the inode extent stands, what is told, and how many names: page 100 has zeros, and page 3,008 is behind the volume.
static ROWS: [(u64, Result<Stat, Refusal>, Result<usize, Refusal>); 3] = [
    (29, Ok(ROOT), Ok(0)),
    (100, Err(AT_100), Err(AT_100)),
    (3008, Err(NOWHERE), Err(NOWHERE)),
];

/// What is told with an inode extent there, and how many names.
fn told(
    alloc: Global,
    disk: &mut SureDisk,
    addr: u64,
) -> Option<(Result<Stat, Refusal>, Result<usize, Refusal>)> {
    let map = map_at(alloc, addr, 0xf000_0000).ok()?;
    if disk.pages() < BLOCKS {
        return None;
    }
    let mut view = DiskView::new(disk, Part::Whole, BLOCKS);
    let stat = root_stat(alloc, &mut view, &map);
    Some((stat, root_names(alloc, &mut view, &map)))
}

#[test]
fn the_root_is_told(rt: HostRuntime) {
    let alloc = rt.alloc();
    let mut disk = formatted(alloc).expect(&rt, "a volume");
    for (addr, stat, names) in ROWS.iter() {
        assert!(rt; told(alloc, &mut disk, *addr) == Some((*stat, *names)));
    }
}
