//! Walks over a new volume: it has a root directory without names.

ghost use Rattle.std.specs.Prelude.{◌≤◌, length};

use crate::volume::{BLOCKS, formatted, map_at, name_of};
use jfs_bits::Rule;
use jfs_disk::{Disk, Part, SureDisk};
use jfs_imap::InodeMap;
use jfs_name::{Name, Path};
use jfs_plain::Refusal;
use jfs_ranges::PageView;
use jfs_reader::DiskView;
use jfs_tree::NO_PAGE;
use jfs_way::{Held, enter, load, walk};
use std::alloc::Global;
use std::test::*;

fn number_of(at: Result<Held, Refusal>) -> Result<u32, Refusal> {
    match at {
        Ok(at) => Ok(at.number),
        Err(e) => Err(e),
    }
}

/// The inode at the end of the path of no name.
fn end<V: PageView>(alloc: Global, view: &mut V, map: &InodeMap) -> Result<u32, Refusal> {
    let path = Path::new(alloc);
    number_of(walk(view, map, path.as_slice()))
}

/// Where a name leads from inode `n`.
fn next<V: PageView>(view: &mut V, map: &InodeMap, n: u32, name: &Name) -> Result<u32, Refusal>
    requires { length name.now ≤ 255 }
{
    match load(view, map, NO_PAGE, n) {
        Ok(at) => number_of(enter(view, map, &at, name)),
        Err(e) => Err(e),
    }
}

/// The end of the path of no name, and where the name `a` leads from an inode, with an inode extent there.
fn steps(
    alloc: Global,
    disk: &mut SureDisk,
    addr: u64,
    n: u32,
) -> Option<(Result<u32, Refusal>, Result<u32, Refusal>)> {
    let map = map_at(alloc, addr, 0xf000_0000).ok()?;
    let name = name_of(alloc, 97)?;
    if disk.pages() < BLOCKS {
        return None;
    }
    let mut view = DiskView::new(disk, Part::Whole, BLOCKS);
    let end = end(alloc, &mut view, &map);
    Some((end, next(&mut view, &map, n, &name)))
}

const AT_29: Refusal = Refusal::Damaged {
    page: 29,
    rule: Rule::Fields,
};

const AT_100: Refusal = Refusal::Damaged {
    page: 100,
    rule: Rule::Fields,
};

const NOWHERE: Refusal = Refusal::Damaged {
    page: NO_PAGE,
    rule: Rule::Fields,
};

/// Where the inode extent stands, the inode from which a name leads, the end of the path without names, and to what the name leads. Inodes 0 to 31 stand on
/// pages 29 to 32 of 3,008, of which inode 4 isn't in use; page 100 has zeros.
static ROWS: [(u64, u32, Result<u32, Refusal>, Result<u32, Refusal>); 6] = [
    (29, 2, Ok(2), Err(Refusal::NotFound)),
    (29, 3, Ok(2), Err(Refusal::NotDir)),
    (29, 4, Ok(2), Err(AT_29)),
    (29, 32, Ok(2), Err(NOWHERE)),
    (100, 2, Err(AT_100), Err(AT_100)),
    (3008, 2, Err(NOWHERE), Err(NOWHERE)),
];

#[test]
fn walks(rt: HostRuntime) {
    let alloc = rt.alloc();
    let mut disk = formatted(alloc).expect(&rt, "a volume");
    for (addr, n, end, next) in ROWS.iter() {
        assert!(rt; steps(alloc, &mut disk, *addr, *n) == Some((*end, *next)));
    }
}
