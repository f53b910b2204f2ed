//! The inodes of a new volume.

ghost use Rattle.std.specs.Prelude.{◌≡◌, ◌<◌, ◌≤◌, ◌^◌, ◌+◌, ℕ, length};
ghost use Rattle.jfs_bits.specs.Descriptor.{FitsPxd};
ghost use Rattle.jfs_bits.specs.Piece.{puts};
ghost use Rattle.jfs_inode.specs.Inode.{FitsDinode};
ghost use Rattle.jfs_format.specs.Layout.{IsLayout};
ghost use Rattle.jfs_format.specs.Root.{extent_head, free_slot, empty_root, no_extents, one_extent};
ghost use Rattle.jfs_format.specs.Inodes.{new_file, file_of, no_inode, aggregate_inode, fileset_inode};

use crate::volume::NewVolume;
use jfs_bits::{Dxd, Moment, Pxd, Xad, put_u8, put_u16, put_u32, put_xad};
use jfs_inode::Dinode;

const EPOCH: Moment = Moment { sec: 0, nano: 0 };

const NO_RUN: Pxd = Pxd { len: 0, addr: 0 };

const NO_DATA: Dxd = Dxd {
    flag: 0,
    size: 0,
    at: NO_RUN,
};

/// A number that isn't in use.
const NO_INODE: Dinode = Dinode {
    inostamp: 0,
    fileset: 0,
    number: 0,
    generation: 0,
    ixpxd: NO_RUN,
    size: 0,
    nblocks: 0,
    nlink: 0,
    uid: 0,
    gid: 0,
    mode: 0,
    atime: EPOCH,
    ctime: EPOCH,
    mtime: EPOCH,
    otime: EPOCH,
    acl: NO_DATA,
    ea: NO_DATA,
    next_index: 0,
    acltype: 0,
    rest: [0; 384],
};

/// The mode of a regular file without permissions, and the same of a sparse one. (JFS header, `IFJOURNAL`, `ISPARSE`.)
const FILE_MODE: u32 = Dinode::JOURNALLED | Dinode::REGULAR;

const SPARSE_MODE: u32 = 0x0003_8000;

/// The mode of the root directory: 0755.
const ROOT_MODE: u32 = Dinode::JOURNALLED | Dinode::DIRECTORY | 0o755;

/// Puts the header of an extent tree's root whose first free slot is `next`.
fn put_extent_head(rest: &mut [u8], next: u16)
    requires { length rest.old ≡ 384 }
    ensures { rest.new ≡ puts (extent_head next) rest.old }
{
    put_u8(rest, 112, 0x83);
    put_u16(rest, 114, next);
    put_u16(rest, 116, 18);
}

/// The root of an extent tree without an extent.
fn no_extents() -> [u8; 384]
    ensures { result ≡ no_extents }
{
    let mut rest = [0u8; 384];
    put_extent_head(&mut rest, 2);
    rest
}

/// The root of an extent tree whose one extent is the whole file.
fn one_extent(run: Pxd) -> [u8; 384]
    requires { FitsPxd run }
    ensures { result ≡ one_extent run }
{
    let mut rest = [0u8; 384];
    put_extent_head(&mut rest, 3);
    let extent = Xad {
        flag: 0,
        offset: 0,
        at: run,
    };
    put_xad(&mut rest, 128, extent);
    rest
}

/// Puts a free slot of a directory's root, with the number of the next one.
fn put_free_slot(rest: &mut [u8], at: usize, next: u8)
    requires size { length rest.old ≡ 384 }
    requires place { at + 2 ≤ 384 }
    ensures { rest.new ≡ puts (free_slot at next) rest.old }
{
    put_u8(rest, at, next);
    put_u8(rest, at + 1, 1);
}

/// The root of the root directory, which has no name.
fn empty_root() -> [u8; 384]
    ensures { result ≡ empty_root }
{
    let mut rest = [0u8; 384];
    put_u8(&mut rest, 112, 0x83);
    put_u8(&mut rest, 113, 0);
    put_u8(&mut rest, 114, 8);
    put_u8(&mut rest, 115, 1);
    put_u32(&mut rest, 116, 2);
    put_free_slot(&mut rest, 128, 2);
    put_free_slot(&mut rest, 160, 3);
    put_free_slot(&mut rest, 192, 4);
    put_free_slot(&mut rest, 224, 5);
    put_free_slot(&mut rest, 256, 6);
    put_free_slot(&mut rest, 288, 7);
    put_free_slot(&mut rest, 320, 8);
    put_free_slot(&mut rest, 352, 255);
    rest
}

/// An inode in its extent that is made just now: a file with one name, without a block.
fn new_file(now: Moment, fileset: u32, extent: Pxd, number: u32) -> Dinode
    requires { FitsPxd extent }
    ensures value { result ≡ new_file now fileset extent number }
    ensures fits { FitsDinode result }
{
    Dinode {
        inostamp: now.sec,
        fileset,
        number,
        generation: 1,
        ixpxd: extent,
        nlink: 1,
        mode: FILE_MODE,
        atime: now,
        ctime: now,
        mtime: now,
        otime: now,
        next_index: 2,
        rest: no_extents(),
        ..NO_INODE
    }
}

/// The same, whose blocks are a run.
fn file_of(run: Pxd, d: Dinode) -> Dinode
    requires run { FitsPxd run }
    requires inode { FitsDinode d }
    ensures value { result ≡ file_of run d }
    ensures fits { FitsDinode result }
{
    Dinode {
        size: 4096 * u64::from(run.len),
        nblocks: u64::from(run.len),
        rest: one_extent(run),
        ..d
    }
}

/// Inode `number` of the aggregate.
pub fn aggregate_inode(v: NewVolume, number: u32) -> Dinode
    requires { (pages : ℕ) × IsLayout pages v.layout }
    ensures value { result ≡ aggregate_inode v number }
    ensures fits { FitsDinode result }
{
    let l = v.layout;
    let plain = new_file(v.moment, 1, Pxd { len: 4, addr: 11 }, number);
    match number {
        0 => Dinode {
            nlink: 1,
            ..NO_INODE
        },
        1 => file_of(Pxd { len: 2, addr: 9 }, plain),
        2 => file_of(
            Pxd {
                len: 4 + l.dmaps,
                addr: 16,
            },
            plain,
        ),
        3 => plain,
        4 => Dinode {
            mode: SPARSE_MODE,
            ..plain
        },
        16 => file_of(
            Pxd {
                len: 1 + l.iags,
                addr: u64::from(26 + l.dmaps),
            },
            plain,
        ),
        _ => NO_INODE,
    }
}

/// Inode `number` of the fileset.
pub fn fileset_inode(v: NewVolume, number: u32) -> Dinode
    requires { (pages : ℕ) × IsLayout pages v.layout }
    ensures value { result ≡ fileset_inode v number }
    ensures fits { FitsDinode result }
{
    let l = v.layout;
    let extent = Pxd {
        len: 4,
        addr: u64::from(27 + l.dmaps + l.iags),
    };
    let plain = new_file(v.moment, 16, extent, number);
    match number {
        2 => Dinode {
            size: 256,
            nlink: 2,
            mode: ROOT_MODE,
            rest: empty_root(),
            ..plain
        },
        0 | 1 | 3 => plain,
        _ => NO_INODE,
    }
}
