//! The page of an inode allocation group, both ways.

ghost use Rattle.std.specs.Prelude.{◌≡◌, ◌+◌, ◌*◌, ◌<◌, ◌≤◌, ◌⊎◌, length, get_or, ℕ};
ghost use Rattle.jfs_bits.specs.Field.{range_of};
ghost use Rattle.jfs_bits.specs.Piece.{puts};
ghost use Rattle.jfs_bits.specs.Descriptor.{pxd_of, FitsPxd};
ghost use Rattle.jfs_iag.specs.Iag.{IsIag, FitsFront, front_of, no_run};

use jfs_bits::{Pxd, get_array, get_pxd, get_u32, get_u64, put_array, put_pxd, put_u32, put_u64};
use jfs_disk::Page;

/// The word that ends a list of inode allocation groups: -1.
pub const END: u32 = u32::MAX;

/// An inode allocation group (IAG): the 4,096 inodes of 128 extents of 32 inodes. (JFS Layout, `struct iag`.)
#[derive(Clone, Copy, PartialEq, Eq)]
pub struct Iag {
    /// The first block of the allocation group that the IAG belongs to.
    pub agstart: u64,
    /// The IAG's own number.
    pub iagnum: u32,
    /// The next and the previous IAG of the group's list of those with a free inode.
    pub inofreefwd: u32,
    pub inofreeback: u32,
    /// The same of the list of those with a free extent place.
    pub extfreefwd: u32,
    pub extfreeback: u32,
    /// The next IAG of the list of those without an extent.
    pub iagfree: u32,
    /// A bit for each extent place, set where no extent is there or none of its inodes is free.
    pub inosmap: [u8; 16],
    /// A bit for each extent place, set where an extent is there.
    pub extsmap: [u8; 16],
    /// The number of free inodes of the extents that are there, and of places without an extent.
    pub nfreeinos: u32,
    pub nfreeexts: u32,
    /// A bit for each inode in use: the working map and the persistent map.
    pub wmap: [u8; 512],
    pub pmap: [u8; 512],
    /// The extents; one of no block at address 0 is not there.
    pub inoext: [Pxd; 128],
}

/// The fields that a page holds.
pub fn read_iag(page: &Page) -> Iag
    ensures value { IsIag result page.now.0 }
    ensures fits { (e : ℕ) → e < 128 → FitsPxd (get_or result.inoext e no_run) }
{
    let bytes: &[u8] = &page.0;
    Iag {
        agstart: get_u64(bytes, 0),
        iagnum: get_u32(bytes, 8),
        inofreefwd: get_u32(bytes, 12),
        inofreeback: get_u32(bytes, 16),
        extfreefwd: get_u32(bytes, 20),
        extfreeback: get_u32(bytes, 24),
        iagfree: get_u32(bytes, 28),
        inosmap: get_array(bytes, 32),
        extsmap: get_array(bytes, 48),
        nfreeinos: get_u32(bytes, 64),
        nfreeexts: get_u32(bytes, 68),
        wmap: get_array(bytes, 2048),
        pmap: get_array(bytes, 2560),
        inoext: extents_of(bytes),
    }
}

/// The 128 extents.
fn extents_of(bytes: &[u8]) -> [Pxd; 128]
    requires { length bytes.now ≡ 4096 }
    ensures size { length result ≡ 128 }
    ensures value { (e : ℕ) → e < 128 → get_or result e no_run ≡ pxd_of bytes.now (3072 + 8 * e) }
    ensures fits { (e : ℕ) → e < 128 → FitsPxd (get_or result e no_run) }
{
    let mut extents = [Pxd { len: 0, addr: 0 }; 128];
    for e in 0..128 {
        extents[e] = get_pxd(bytes, 3072 + 8 * e);
    }
    extents
}

/// Puts the fields into a page; the reserved bytes stay.
pub fn write_iag(page: &mut Page, i: &Iag)
    requires { (e : ℕ) → e < 128 → FitsPxd (get_or i.now.inoext e no_run) }
    ensures value { IsIag i.now page.new.0 }
    ensures pad { range_of page.new.0 72 1976 ≡ range_of page.old.0 72 1976 }
    ensures size { length page.new.0 ≡ 4096 }
{
    let bytes: &mut [u8] = &mut page.0;
    put_front(bytes, i);
    put_extents(bytes, &i.inoext);
}

/// Puts the fields before the extents.
fn put_front(bytes: &mut [u8], i: &Iag)
    requires { length bytes.old ≡ 4096 }
    ensures bytes { bytes.new ≡ puts (front_of i.now) bytes.old }
    ensures fits { FitsFront i.now }
{
    put_u64(bytes, 0, i.agstart);
    put_u32(bytes, 8, i.iagnum);
    put_u32(bytes, 12, i.inofreefwd);
    put_u32(bytes, 16, i.inofreeback);
    put_u32(bytes, 20, i.extfreefwd);
    put_u32(bytes, 24, i.extfreeback);
    put_u32(bytes, 28, i.iagfree);
    put_array(bytes, 32, &i.inosmap);
    put_array(bytes, 48, &i.extsmap);
    put_u32(bytes, 64, i.nfreeinos);
    put_u32(bytes, 68, i.nfreeexts);
    put_array(bytes, 2048, &i.wmap);
    put_array(bytes, 2560, &i.pmap);
}

/// Puts the extents.
fn put_extents(bytes: &mut [u8], extents: &[Pxd; 128])
    requires size { length bytes.old ≡ 4096 }
    requires fits { (e : ℕ) → e < 128 → FitsPxd (get_or extents.now e no_run) }
    ensures value { (e : ℕ) → e < 128 → pxd_of bytes.new (3072 + 8 * e) ≡ get_or extents.now e no_run }
    ensures beside { (p n : ℕ) → p + n ≤ 3072 → range_of bytes.new p n ≡ range_of bytes.old p n }
    ensures many { length extents.now ≡ 128 }
{
    for e in 0..128 {
        put_pxd(bytes, 3072 + 8 * e, extents[e]);
    }
}
