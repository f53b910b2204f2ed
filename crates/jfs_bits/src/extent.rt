//! Descriptors of extents: runs of a file's blocks with their place in the file, and runs with a size.

ghost use Rattle.std.specs.Prelude.{◌≡◌, ◌+◌, ◌≤◌, length};
ghost use Rattle.jfs_bits.specs.Piece.{puts};
ghost use Rattle.jfs_bits.specs.Extent.{xad_of, xad_pieces, FitsXad, dxd_of, dxd_pieces, FitsDxd};

use crate::descriptor::{Pxd, get_pxd, put_pxd};
use crate::field::{get_u8, get_u32, put_u8, put_u32};
use crate::list::Sequence;

/// An extent of a file (extent allocation descriptor): the blocks of `at` are those from block `offset` of the file on.
/// On the disk the offset has 40 bits. (JFS Layout, `xad_t`.)
#[derive(Clone, Copy, PartialEq, Eq, Debug)]
pub struct Xad {
    pub flag: u8,
    pub offset: u64,
    pub at: Pxd,
}

impl Xad {
    /// The flag of an extent that was never written: it reads as zeros.
    pub const NOT_RECORDED: u8 = 0x08;
}

/// A run of blocks with the number of bytes that it holds (data extent descriptor), as for the attributes of an inode.
/// (JFS Layout, `dxd_t`.)
#[derive(Clone, Copy, PartialEq, Eq, Debug)]
pub struct Dxd {
    pub flag: u8,
    pub size: u32,
    pub at: Pxd,
}

impl Dxd {
    /// The flag of data that lie in the run.
    pub const EXTENT: u8 = 0x20;
    /// The flag of data that lie in the inode.
    pub const INLINE: u8 = 0x40;
}

/// Extents of a file.
pub type XadList = Sequence<Xad>;

/// The extent that the 16 bytes from `at` on describe.
pub fn get_xad(bytes: &[u8], at: usize) -> Xad
    requires { at + 16 ≤ length bytes.now }
    ensures value { result ≡ xad_of bytes.now at }
    ensures fits { FitsXad result }
{
    Xad {
        flag: get_u8(bytes, at),
        offset: u64::from(get_u8(bytes, at + 3)) * (1 << 32) + u64::from(get_u32(bytes, at + 4)),
        at: get_pxd(bytes, at + 8),
    }
}

/// Puts an extent into the 16 bytes from `at` on; the two reserved bytes of these stay.
pub fn put_xad(bytes: &mut [u8], at: usize, v: Xad)
    requires within { at + 16 ≤ length bytes.old }
    requires fits { FitsXad v }
    ensures bytes { bytes.new ≡ puts (xad_pieces at v) bytes.old }
    ensures read_back { xad_of bytes.new at ≡ v }
{
    put_u8(bytes, at, v.flag);
    put_u8(bytes, at + 3, (v.offset / (1 << 32)) as u8);
    put_u32(bytes, at + 4, (v.offset % (1 << 32)) as u32);
    put_pxd(bytes, at + 8, v.at);
}

/// The run with a size that the 16 bytes from `at` on describe.
pub fn get_dxd(bytes: &[u8], at: usize) -> Dxd
    requires { at + 16 ≤ length bytes.now }
    ensures value { result ≡ dxd_of bytes.now at }
    ensures fits { FitsDxd result }
{
    Dxd {
        flag: get_u8(bytes, at),
        size: get_u32(bytes, at + 4),
        at: get_pxd(bytes, at + 8),
    }
}

/// Puts a run with a size into the 16 bytes from `at` on; the three reserved bytes of these stay.
pub fn put_dxd(bytes: &mut [u8], at: usize, v: Dxd)
    requires within { at + 16 ≤ length bytes.old }
    requires fits { FitsDxd v }
    ensures bytes { bytes.new ≡ puts (dxd_pieces at v) bytes.old }
    ensures read_back { dxd_of bytes.new at ≡ v }
{
    put_u8(bytes, at, v.flag);
    put_u32(bytes, at + 4, v.size);
    put_pxd(bytes, at + 8, v.at);
}
