//! A new inode extent, none of whose inodes is in use.

ghost use Rattle.std.specs.Prelude.{◌≡◌, ◌<◌, ◌≤◌, ◌+◌, ◌++◌, ℕ, OnOk, IfOk, length};
ghost use Rattle.jfs_bits.specs.Descriptor.{FitsPxd};
ghost use Rattle.jfs_inode.specs.Inode.{FitsDinode};
ghost use Rattle.jfs_link.specs.objects.specs.Volume.{slot_of};
ghost use Rattle.jfs_create.specs.Extent.{free_inode, IsFreePage, TellsExtent};

use crate::new::NO_DATA;
use jfs_bits::{Blob, Moment, PageKind, Pxd};
use jfs_disk::Page;
use jfs_inode::{Dinode, write_dinode};
use jfs_ranges::{Edit, Tx};
use std::alloc::{AllocError, Global};

/// A new extent: its four blocks, its first inode's number, and the fileset's stamp.
#[derive(Clone, Copy)]
pub struct NewExtent {
    pub run: Pxd,
    pub first: u32,
    pub stamp: u32,
}

/// Tells a new inode extent, by one edit: its four pages, whole. None of its 32 inodes is in use, and each has its number.
pub(crate) fn tell_extent(alloc: Global, extent: NewExtent, tx: &mut Tx) -> Result<(), AllocError>
    requires run { FitsPxd extent.run }
    requires address { extent.run.addr < 4294967296 }
    requires numbers { extent.first + 32 ≤ 4294967296 }
    ensures tells { OnOk result (TellsExtent extent tx.old tx.new) }
{
    let mut bytes = Blob::new(alloc);
    bytes.extend_from_slice(&free_page(extent, 0).0)?;
    bytes.extend_from_slice(&free_page(extent, 8).0)?;
    bytes.extend_from_slice(&free_page(extent, 16).0)?;
    bytes.extend_from_slice(&free_page(extent, 24).0)?;
    tx.push(Edit::Lines {
        page: extent.run.addr as u32,
        kind: PageKind::Inode,
        first: 0,
        bytes,
    })
}

/// The page of the eight inodes from number `extent.first + from` on.
fn free_page(extent: NewExtent, from: u32) -> Page
    requires run { FitsPxd extent.run }
    requires numbers { extent.first + 32 ≤ 4294967296 }
    requires from { from ≤ 24 }
    ensures { IsFreePage extent from result.0 }
{
    let mut page = Page::zeros();
    for slot in 0..8 {
        let d = free_inode(extent, extent.first + from + slot);
        write_dinode(&mut page, slot, &d);
    }
    page
}

/// An inode that isn't in use.
fn free_inode(extent: NewExtent, number: u32) -> Dinode
    requires { FitsPxd extent.run }
    ensures value { result ≡ free_inode extent number }
    ensures fits { FitsDinode result }
{
    let never = Moment { sec: 0, nano: 0 };
    Dinode {
        inostamp: extent.stamp,
        fileset: 16,
        number,
        generation: 0,
        ixpxd: extent.run,
        size: 0,
        nblocks: 0,
        nlink: 0,
        uid: 0,
        gid: 0,
        mode: 0,
        atime: never,
        ctime: never,
        mtime: never,
        otime: never,
        acl: NO_DATA,
        ea: NO_DATA,
        next_index: 0,
        acltype: 0,
        rest: [0; 384],
    }
}
