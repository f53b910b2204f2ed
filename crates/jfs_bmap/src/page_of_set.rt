//! One dmap page of a set of blocks.

ghost use Rattle.std.specs.Prelude.{◌≡◌, ◌+◌, ◌-◌, ◌*◌, ◌%◌, ◌^◌, ◌<◌, ◌≤◌, length, ℕ};
ghost use Rattle.jfs_bits.specs.Bits.{is_taken};
ghost use Rattle.jfs_dmap.specs.Dmap.{taken_in};
ghost use Rattle.jfs_bmap.specs.Pages.{IsDmapOf};

use jfs_disk::Page;
use jfs_dmap::dmap_canonical;

/// The canonical dmap `k` of a volume of so many blocks, of which those in `set` are taken: a bit for each block, in words as in
/// the maps.
pub fn dmap_of(set: &[u8], blocks: u32, k: u32) -> Page
    requires most { blocks ≤ 2 ^ 23 }
    requires size { blocks ≤ 8 * length set.now }
    requires words { length set.now % 4 ≡ 0 }
    requires within { 8192 * k < blocks }
    ensures dmap { IsDmapOf blocks k result.0 }
    ensures set { (i : ℕ) → i < 8192 → 8192 * k + i < blocks → taken_in result.0 i ≡ is_taken set.now (8192 * k + i) }
{
    let bits = bits_of(set, 1024 * k as usize);
    let mut page = Page::zeros();
    dmap_canonical(
        &bits,
        8192 * u64::from(k),
        (blocks - 8192 * k).min(8192),
        &mut page,
    );
    page
}

/// The 1,024 bytes from `at` on, zeros where there are none.
fn bits_of(set: &[u8], at: usize) -> [u8; 1024]
    requires { at ≤ length set.now }
    ensures { (i : ℕ) → i < 8192 → 8 * at + i < 8 * length set.now → at % 4 ≡ 0 → length set.now % 4 ≡ 0 → is_taken result i ≡ is_taken set.now (8 * at + i) }
{
    let mut bits = [0u8; 1024];
    let n = (set.len() - at).min(1024);
    bits[..n].copy_from_slice(&set[at..at + n]);
    bits
}
