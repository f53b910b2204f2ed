//! The inode map, and the lowest free inode.

ghost use Rattle.std.specs.Prelude.{◌≡◌, ◌+◌, ◌*◌, ◌^◌, ◌<◌, ◌≤◌, ◌&&◌, nat_lt, true, false, not, length, get_or, ℕ, IfOk};
ghost use Rattle.jfs_bits.specs.Bits.{is_taken, is_taken_in, any_below};
ghost use Rattle.jfs_bits.specs.Descriptor.{FitsPxd};
ghost use Rattle.jfs_iag.specs.Iag.{no_run};
ghost use Rattle.jfs_iag.specs.Canonical.{is_there, has_free};
ghost use Rattle.jfs_imap.specs.Inodes.{inodes_of, IsPick};

use crate::summary::Summary;
use jfs_bits::{Pxd, PxdList, get_u32, lowest_run};
use jfs_iag::{extent_has_free, is_there};
use std::alloc::{AllocError, Global};
use std::marker::Model;

/// Where a new inode can be had.
#[derive(Clone, Copy, PartialEq, Eq, Debug)]
pub enum Pick {
    /// The lowest free number.
    Number(u32),
    /// No inode is free, but a place for an inode extent is: the lowest one, whose first inode is `32 * place`.
    NeedsExtent { place: u32 },
    /// Neither is free.
    NoInodes,
}

/// The inode map of a mounted volume: the set of inodes in use, and the inode extents. (JFS Layout, inode map.)
#[derive(Drop)]
pub struct InodeMap {
    pub(crate) iags: u32,
    pub(crate) agsize: u32,
    pub(crate) numag: u32,
    /// A bit for each inode, in words as in the maps.
    pub(crate) set: Vec<u8>,
    pub(crate) extents: Vec<Pxd>,
    /// The extents with a free inode.
    pub(crate) free: Summary,
    /// The places without an extent.
    pub(crate) places: Summary,
}

impl Model for InodeMap {
    ghost use Rattle.jfs_imap.specs.Inodes.{Inodes, inodes_of, AreKept};

    ghost Value = { Inodes };

    ghost view = { λ m. inodes_of m.set.items m.extents.items m.iags m.agsize m.numag };

    ghost invariant = { λ m. AreKept m.iags m.numag m.set.items m.extents.items m.free m.places };
}

impl InodeMap {
    /// The map of so many inode allocation groups (IAGs): `set` has a bit for each inode, in words as in the maps, and
    /// `extents` has an extent for each place, of zeros where none is there. Allocation groups have `agsize` blocks, and
    /// `numag` of them have lists of IAGs. `Err` is want of memory.
    pub fn from_parts(
        alloc: Global,
        set: &[u8],
        extents: &PxdList,
        iags: u32,
        agsize: u32,
        numag: u32,
    ) -> Result<InodeMap, AllocError>
        requires iags { (1 ≤ iags) × (iags ≤ 65536) }
        requires set { length set.now ≡ 512 * iags }
        requires extents { length extents.now ≡ 128 * iags }
        requires fits { (e : ℕ) → e < 128 * iags → FitsPxd (get_or extents.now e no_run) }
        requires groups { (1 ≤ numag) × (numag ≤ 128) }
        ensures { IfOk result (λ m. m ≡ inodes_of set.now extents.now iags agsize numag) }
    {
        let extents = extents.as_slice();
        let height = height_of(iags);
        Ok(InodeMap {
            iags,
            agsize,
            numag,
            set: set.to_vec(alloc)?,
            extents: extents.to_vec(alloc)?,
            free: free_extents(alloc, set, extents, height)?,
            places: free_places(alloc, extents, height)?,
        })
    }

    /// Where a new inode can be had. Looks at no full extent.
    pub fn pick(&self) -> Pick
        ensures { IsPick self.now result }
    {
        if let Some(e) = self.free.first() {
            let word = get_u32(self.set.as_slice(), 4 * e as usize);
            return Pick::Number(32 * e + first_clear(word));
        }
        match self.places.first() {
            Some(place) => Pick::NeedsExtent { place },
            None => Pick::NoInodes,
        }
    }
}

/// So many levels that a tree has a leaf for each extent place.
fn height_of(iags: u32) -> u32
    requires { iags ≤ 65536 }
    ensures bounds { (7 ≤ result) × (result ≤ 23) }
    ensures room { 128 * iags ≤ 2 ^ result }
{
    for height in 7..23 {
        if 128 * iags <= 1 << height {
            return height;
        }
    }
    23
}

/// The extents with a free inode.
fn free_extents(
    alloc: Global,
    set: &[u8],
    extents: &[Pxd],
    height: u32,
) -> Result<Summary, AllocError>
    requires height { (7 ≤ height) × (height ≤ 23) }
    requires set { length set.now ≡ 4 * length extents.now }
    requires room { length extents.now ≤ 2 ^ height }
    ensures marks { IfOk result (λ free. (e : ℕ) → get_or free e false ≡ (nat_lt e (length extents.now) && has_free (is_taken set.now) (λ e. get_or extents.now e no_run) e)) }
    ensures size { IfOk result (λ free. length free ≡ 2 ^ height) }
{
    let mut free = Summary::new(alloc, height)?;
    for e in 0..extents.len() as u32 {
        free.set(e, extent_has_free(set, extents, e));
    }
    Ok(free)
}

/// The places without an extent.
fn free_places(alloc: Global, extents: &[Pxd], height: u32) -> Result<Summary, AllocError>
    requires height { (7 ≤ height) × (height ≤ 23) }
    requires room { length extents.now ≤ 2 ^ height }
    ensures marks { IfOk result (λ places. (e : ℕ) → get_or places e false ≡ (nat_lt e (length extents.now) && not (is_there (get_or extents.now e no_run)))) }
    ensures size { IfOk result (λ places. length places ≡ 2 ^ height) }
{
    let mut places = Summary::new(alloc, height)?;
    for e in 0..extents.len() as u32 {
        places.set(e, !is_there(extents[e as usize]));
    }
    Ok(places)
}

/// The first inode of a word that is free.
fn first_clear(word: u32) -> u32
    requires { any_below 32 (λ i. not (is_taken_in word i)) ≡ true }
    ensures within { result < 32 }
    ensures free { is_taken_in word result ≡ false }
    ensures before { (i : ℕ) → i < result → is_taken_in word i ≡ true }
{
    match lowest_run(word, 0) {
        Some(i) => i,
        None => unreachable!(),
    }
}
