//! What transactions leave of the maps, and the inodes in use.

use jfs_bits::{Blob, PageKind, Pxd, put_u32};
use jfs_disk::{Disk, Page, Part, SureDisk};
use jfs_ranges::{Edit, PageView, Tx};
use jfs_reader::DiskView;
use jfs_redo_steps::{inodes_in_use, redo_blocks, redo_extents};
use std::alloc::{AllocError, Global};
use std::test::*;

/// Blocks 4 to 9 are taken, blocks 6 and 7 freed, and a new inode extent is made of blocks 12 to 15, for the numbers from 32 on.
fn transactions(alloc: Global) -> Result<Vec<Tx>, AllocError> {
    let mut tx = Tx::new(alloc);
    tx.push(Edit::Alloc(Pxd { len: 6, addr: 4 }))?;
    tx.push(Edit::Free(Pxd { len: 2, addr: 6 }))?;
    let mut bytes = Blob::new(alloc);
    for _ in 0..32 {
        let mut inode = [0u8; 512];
        put_u32(&mut inode, 8, 40);
        bytes.extend_from_slice(&inode)?;
    }
    tx.push(Edit::Lines {
        page: 12,
        kind: PageKind::Inode,
        first: 0,
        bytes,
    })?;
    let mut one = Vec::new(alloc);
    one.push(tx)?;
    Ok(one)
}

#[test]
fn blocks_and_extents_are_redone(rt: HostRuntime) {
    let alloc = rt.alloc();
    let transactions = transactions(alloc).expect(&rt, "memory");
    let mut set = [0u8; 4];
    redo_blocks(transactions.as_slice(), &mut set);
    assert_eq!(rt; set, [0, 0, 0xcf, 0x0c]);
    let mut extents = [Some(4), None];
    redo_extents(transactions.as_slice(), &mut extents);
    assert_eq!(rt; extents, [Some(4), Some(12)]);
}

/// The inodes in use of a disk, whose extent at place 1 begins at page 4.
fn found(alloc: Global, disk: &mut SureDisk) -> Option<Vec<u8>> {
    let blocks = disk.pages();
    let mut view = DiskView::new(disk, Part::Whole, blocks);
    if view.blocks() != 8 {
        return None;
    }
    inodes_in_use(alloc, &mut view, &[None, Some(4)]).ok()
}

/// A disk of eight pages, on which inodes 33 and 58 have a link count.
fn disk_of(alloc: Global) -> Option<SureDisk> {
    let mut disk = SureDisk::new(alloc, 8).ok()?;
    for (page, slot) in [(4, 1), (7, 2)] {
        let mut bytes = Page::zeros();
        put_u32(&mut bytes.0, 512 * slot + 40, 1);
        if page >= disk.pages() || disk.write(page, &bytes).is_err() {
            return None;
        }
    }
    Some(disk)
}

// The first four of all inodes would be in use, but they have no extent.
#[test]
fn inodes_are_found_by_their_links(rt: HostRuntime) {
    let alloc = rt.alloc();
    let mut disk = disk_of(alloc).expect(&rt, "memory");
    let set = found(alloc, &mut disk).expect(&rt, "memory");
    assert_eq!(rt; set.as_slice(), [0u8, 0, 0, 0, 0x20, 0, 0, 0x40].as_slice());
}
