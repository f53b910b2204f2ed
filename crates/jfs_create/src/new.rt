//! The inode of a new object.

ghost use Rattle.std.specs.Prelude.{◌≡◌, ◌<◌, ◌≤◌, ◌+◌, length};
ghost use Rattle.jfs_bits.specs.Descriptor.{FitsPxd};
ghost use Rattle.jfs_inode.specs.Inode.{FitsDinode};
ghost use Rattle.jfs_bits.specs.Field.{put_bytes, range_of};
ghost use Rattle.jfs_create.specs.New.{IsNewInode, IsRest, IsFileRest, IsDirectoryRest, FitsNew, mode_of, links_of, size_of};

use jfs_bits::{Dxd, Moment, Pxd, put_array};
use jfs_inode::Dinode;

/// What a new object is. A mode has the twelve permission bits; a target has 1 to 255 bytes.
#[derive(Clone, Copy)]
pub enum NewObject<'a> {
    File { mode: u32 },
    Directory { mode: u32 },
    Link { target: &'a [u8] },
}

/// Where a new object's inode stands, and what it takes from there.
#[derive(Clone, Copy)]
pub struct Seat {
    /// The inode's number, and the inode extent in which it lies.
    pub number: u32,
    pub extent: Pxd,
    /// The stamp that all inodes of the fileset have.
    pub stamp: u32,
    /// How often the number was used before.
    pub generation: u32,
    /// The inode of the directory that names it.
    pub parent: u32,
}

/// The number of the fileset. (JFS Layout, FILESYSTEM_I.)
const FILESET: u32 = 16;

/// The mode bit of a file that may have holes. (JFS Layout, ISPARSE.)
const SPARSE: u32 = 0x0002_0000;

/// The mode bit of an inode whose last 128 bytes hold nothing, so that attributes may stand there. (JFS Layout, INLINEEA.)
const SPACE_FOR_ATTRIBUTES: u32 = 0x0004_0000;

/// A target of so many bytes, and the byte behind it, reach no further than byte 384 of the inode.
const SHORT_TARGET: usize = 127;

/// A descriptor of attributes that aren't there.
pub(crate) const NO_DATA: Dxd = Dxd {
    flag: 0,
    size: 0,
    at: Pxd { len: 0, addr: 0 },
};

/// The inode of an object that is made just now: it owns no block, and its owner is 0.
pub fn new_inode(object: NewObject<'_>, seat: Seat, now: Moment) -> Dinode
    requires object { FitsNew object }
    requires extent { FitsPxd seat.extent }
    ensures is_new { IsNewInode object.entry seat now result }
    ensures fits { FitsDinode result }
{
    Dinode {
        inostamp: seat.stamp,
        fileset: FILESET,
        number: seat.number,
        generation: seat.generation.wrapping_add(1),
        ixpxd: seat.extent,
        size: size_of(object),
        nblocks: 0,
        nlink: links_of(object),
        uid: 0,
        gid: 0,
        mode: mode_of(object),
        atime: now,
        ctime: now,
        mtime: now,
        otime: now,
        acl: NO_DATA,
        ea: NO_DATA,
        next_index: 2,
        acltype: 0,
        rest: rest_of(object, seat.parent),
    }
}

/// The type and the permission bits; a file may have holes, and a link has mode 0777.
fn mode_of(object: NewObject<'_>) -> u32
    requires { FitsNew object }
    ensures { result ≡ mode_of object.entry }
{
    match object {
        NewObject::File { mode } => Dinode::JOURNALLED + SPARSE + Dinode::REGULAR + mode,
        NewObject::Directory { mode } => Dinode::JOURNALLED + Dinode::DIRECTORY + mode,
        NewObject::Link { target } if target.len() <= SHORT_TARGET => {
            Dinode::JOURNALLED + SPACE_FOR_ATTRIBUTES + Dinode::LINK + 0o777
        }
        NewObject::Link { .. } => Dinode::JOURNALLED + Dinode::LINK + 0o777,
    }
}

/// A directory has a link of its own.
fn links_of(object: NewObject<'_>) -> u32
    ensures { result ≡ links_of object.entry }
{
    match object {
        NewObject::Directory { .. } => 2,
        _ => 1,
    }
}

/// An empty directory is told to have 256 bytes.
fn size_of(object: NewObject<'_>) -> u64
    ensures { result ≡ size_of object.entry }
{
    match object {
        NewObject::File { .. } => 0,
        NewObject::Directory { .. } => 256,
        NewObject::Link { target } => target.len() as u64,
    }
}

/// The root of an empty tree, or a target.
fn rest_of(object: NewObject<'_>, parent: u32) -> [u8; 384]
    requires { FitsNew object }
    ensures { IsRest object.entry parent result }
{
    match object {
        NewObject::File { .. } => file_rest(),
        NewObject::Directory { .. } => directory_rest(parent),
        NewObject::Link { target } => link_rest(target),
    }
}

/// The root of an extent tree without extents, at byte 224 of the inode.
fn file_rest() -> [u8; 384]
    ensures { IsFileRest result }
{
    let mut rest = [0u8; 384];
    let mut root = [0u8; 288];
    jfs_xtree::new_root(&mut root);
    put_array(&mut rest, 96, &root);
    rest
}

/// The root of a directory without names, with its parent, in the same place.
fn directory_rest(parent: u32) -> [u8; 384]
    ensures { IsDirectoryRest parent result }
{
    let mut rest = [0u8; 384];
    let mut root = [0u8; 288];
    jfs_dtree::new_root(&mut root, parent);
    put_array(&mut rest, 96, &root);
    rest
}

/// A target, from byte 256 of the inode on.
fn link_rest(target: &[u8]) -> [u8; 384]
    requires { length target.now ≤ 255 }
    ensures { range_of result 128 (length target.now) ≡ target.now }
{
    let mut rest = [0u8; 384];
    put_target(&mut rest, target);
    rest
}

/// Puts a target there.
fn put_target(rest: &mut [u8], target: &[u8])
    requires within { 128 + length target.now ≤ length rest.old }
    ensures { rest.new ≡ put_bytes 128 target.now rest.old }
{
    rest[128..128 + target.len()].copy_from_slice(target);
}
