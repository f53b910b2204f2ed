//! The sets that the maps of a new volume have.

ghost use Rattle.std.specs.Prelude.{◌≤◌, ◌^◌};

use jfs_bits::{Moment, Pxd, PxdList};
use jfs_disk::{Disk, Part, SureDisk};
use jfs_format::format;
use jfs_mount::mounted;
use jfs_ranges::PageView;
use jfs_reader::DiskView;
use jfs_sets::{inode_extents, used_blocks, used_inodes};
use std::alloc::Global;
use std::test::*;
use uuid::Uuid;

/// The bits of blocks and of inodes, and the inode extents.
type Sets = (Vec<u8>, Vec<u8>, PxdList);

/// The sets of a volume that breaks no rule of a mount.
fn sets_of<V: PageView>(alloc: Global, view: &mut V) -> Option<Sets>
    requires some { 15 ≤ V.PageView.block_count view.old }
    requires most { V.PageView.block_count view.old ≤ 2 ^ 23 }
{
    let Ok(answer) = mounted(alloc, view) else {
        return None;
    };
    let Ok(found) = answer else {
        return None;
    };
    let blocks = used_blocks(alloc, view, &found.maps).ok()?;
    let inodes = used_inodes(alloc, view, &found.maps).ok()?;
    let extents = inode_extents(alloc, found.places.as_slice()).ok()?;
    Some((blocks, inodes, extents))
}

/// Whether a map begins with these bytes, and zeros follow up to so many.
fn begins(map: &[u8], front: &[u8], end: usize) -> bool {
    for i in 0..end {
        let wanted = if i < front.len() { front[i] } else { 0 };
        if i >= map.len() || map[i] != wanted {
            return false;
        }
    }
    true
}

/// The sets of a new volume.
fn new_sets(alloc: Global) -> Option<Sets> {
    let mut disk = SureDisk::new(alloc, 4096).ok()?;
    let now = Moment { sec: 1000, nano: 7 };
    format(&mut disk, Uuid::from_bytes([7; 16]), b"sets", now).ok()?;
    if disk.pages() < 3008 {
        return None;
    }
    let mut view = DiskView::new(&mut disk, Part::Whole, 3008);
    if view.blocks() != 3008 {
        return None;
    }
    sets_of(alloc, &mut view)
}

/// The inode extent, and a place without one.
fn are_places(extents: &PxdList) -> bool {
    extents.len() == 128
        && extents.get(0) == Some(&Pxd { len: 4, addr: 29 })
        && extents.get(1) == Some(&Pxd { len: 0, addr: 0 })
}

// Blocks 0 to 32 of 3,008 are in use, inodes 0 to 3, and one inode extent of 128 places is there.
#[test]
fn a_new_volume_has_these_sets(rt: HostRuntime) {
    let (blocks, inodes, extents) = new_sets(rt.alloc()).expect(&rt, "sets");
    assert!(rt; blocks.len() == 1024 && inodes.len() == 512);
    assert!(rt; begins(&blocks, &[255, 255, 255, 255, 0, 0, 0, 128], 376));
    assert!(rt; begins(&inodes, &[0, 0, 0, 0xf0], 512));
    assert!(rt; are_places(&extents));
}
