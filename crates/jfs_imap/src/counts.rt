//! The inodes of an inode map, counted group by group.

ghost use Rattle.std.specs.Prelude.{◌≡◌, ◌+◌, ◌*◌, ◌/◌, ◌%◌, ◌<◌, ◌≤◌, ◌==◌, ◌&&◌, not, length, get_or, if◌then◌else◌, ℕ};
ghost use Rattle.jfs_bits.specs.Bits.{is_taken, count_below};
ghost use Rattle.jfs_iag.specs.Iag.{no_run};
ghost use Rattle.jfs_iag.specs.Canonical.{is_there, is_free_inode};

use jfs_bits::{Pxd, bit};
use jfs_iag::is_there;

/// 1 for what holds, 0 for what doesn't.
fn weight(holds: bool) -> u32
    ensures { result ≡ (if holds then 1 else 0) }
{
    if holds { 1 } else { 0 }
}

/// Whether inode `i` lies in an extent that is there, and isn't in use.
fn is_free(set: &[u8], extents: &[Pxd], i: u32) -> bool
    requires words { length set.now % 4 ≡ 0 }
    requires set { i < 8 * length set.now }
    requires extents { i / 32 < length extents.now }
    ensures { result ≡ is_free_inode (is_taken set.now) (λ e. get_or extents.now e no_run) i }
{
    is_there(extents[(i / 32) as usize]) && !bit(set, i)
}

/// The number of free inodes of IAG `k`.
fn free_in(set: &[u8], extents: &[Pxd], k: u32) -> u32
    requires words { length set.now % 4 ≡ 0 }
    requires most { k < 65536 }
    requires set { 512 * k + 512 ≤ length set.now }
    requires extents { 128 * k + 128 ≤ length extents.now }
    ensures value { result ≡ count_below 4096 (λ i. is_free_inode (is_taken set.now) (λ e. get_or extents.now e no_run) (4096 * k + i)) }
    ensures most { result ≤ 4096 }
{
    let mut free = 0;
    for i in 0..4096 {
        free += weight(is_free(set, extents, 4096 * k + i));
    }
    free
}

/// The number of extents of IAG `k` that are there.
fn extents_in(extents: &[Pxd], k: u32) -> u32
    requires most { k < 65536 }
    requires extents { 128 * k + 128 ≤ length extents.now }
    ensures value { result ≡ count_below 128 (λ e. is_there (get_or extents.now (128 * k + e) no_run)) }
    ensures most { result ≤ 128 }
{
    let mut there = 0;
    for e in 0..128 {
        there += weight(is_there(extents[(128 * k + e) as usize]));
    }
    there
}

/// The number of free inodes of all IAGs.
pub(crate) fn free_inodes(set: &[u8], extents: &[Pxd], iags: u32) -> u32
    requires most { iags ≤ 65536 }
    requires set { length set.now ≡ 512 * iags }
    requires extents { length extents.now ≡ 128 * iags }
    ensures { result ≡ count_below (4096 * iags) (is_free_inode (is_taken set.now) (λ e. get_or extents.now e no_run)) }
{
    let mut free = 0;
    for k in 0..iags {
        free += free_in(set, extents, k);
    }
    free
}

/// The number of extents of all IAGs that are there.
pub(crate) fn extents_there(extents: &[Pxd], iags: u32) -> u32
    requires most { iags ≤ 65536 }
    requires extents { length extents.now ≡ 128 * iags }
    ensures value { result ≡ count_below (128 * iags) (λ e. is_there (get_or extents.now e no_run)) }
    ensures most { result ≤ 128 * iags }
{
    let mut there = 0;
    for k in 0..iags {
        there += extents_in(extents, k);
    }
    there
}

/// The number of free inodes of each group; IAG k is of group k mod `numag`.
pub(crate) fn free_by_group(set: &[u8], extents: &[Pxd], iags: u32, numag: u32) -> [u32; 128]
    requires most { iags ≤ 65536 }
    requires set { length set.now ≡ 512 * iags }
    requires extents { length extents.now ≡ 128 * iags }
    requires groups { 0 < numag }
    requires few { numag ≤ 128 }
    ensures size { length result ≡ 128 }
    ensures counts { (g : ℕ) → g < 128 → get_or result g 0 ≡ count_below (4096 * iags) (λ i. is_free_inode (is_taken set.now) (λ e. get_or extents.now e no_run) i && i / 4096 % numag == g) }
{
    let mut free = [0u32; 128];
    for k in 0..iags {
        let g = (k % numag) as usize;
        free[g] += free_in(set, extents, k);
    }
    free
}

/// The number of extents of each group that are there.
pub(crate) fn extents_by_group(extents: &[Pxd], iags: u32, numag: u32) -> [u32; 128]
    requires most { iags ≤ 65536 }
    requires extents { length extents.now ≡ 128 * iags }
    requires groups { 0 < numag }
    requires few { numag ≤ 128 }
    ensures size { length result ≡ 128 }
    ensures counts { (g : ℕ) → g < 128 → get_or result g 0 ≡ count_below (128 * iags) (λ e. is_there (get_or extents.now e no_run) && e / 128 % numag == g) }
{
    let mut there = [0u32; 128];
    for k in 0..iags {
        let g = (k % numag) as usize;
        there[g] += extents_in(extents, k);
    }
    there
}
