//! Pages of both maps, changed at one place.

use jfs_bits::{Pxd, set_run};
use jfs_bmap::OwnedMap;
use jfs_disk::Page;
use jfs_iag::{NO_EXTENT, iag_canonical};
use jfs_map_check::{is_canonical, judge_iag};
use std::alloc::{AllocError, Global};

/// The map of 100 blocks, of which the first 20 have owners.
pub fn small_map(alloc: Global) -> Result<OwnedMap, AllocError> {
    let mut set = [0u8; 16];
    set_run(&mut set, 0, 20);
    OwnedMap::from_set(alloc, &set, 100, 8192)
}

/// Changes bits of the byte at `at`, if there is one.
fn change(page: &mut Page, at: usize, bits: u8) {
    if at < 4096 {
        page.0[at] ^= bits;
    }
}

/// Whether page `n` of a block map's file passes, changed at `at`.
pub fn passes(map: &OwnedMap, n: u32, at: usize) -> bool {
    let mut page = Page::zeros();
    let mut canonical = Page::zeros();
    map.write_page(n, &mut page);
    change(&mut page, at, 1);
    is_canonical(map, n, &page, &mut canonical)
}

/// Whether the page of IAG 7, which has no extent, passes, changed at `at`.
pub fn iag_passes(at: usize) -> bool {
    let set = [0u8; 512];
    let mut page = Page::zeros();
    iag_canonical(&set, &[NO_EXTENT; 128], 7, 0, &mut page);
    change(&mut page, at, 1);
    judge_iag(&set, 7, &page).canonical
}

/// Whether the page of IAG 7 passes, whose 128 extents are there and have no inode in use, with these bits changed at `at`.
pub fn full_iag_passes(at: usize, bits: u8) -> bool {
    let set = [0u8; 512];
    let extent = Pxd { len: 4, addr: 1000 };
    let mut page = Page::zeros();
    iag_canonical(&set, &[extent; 128], 7, 0, &mut page);
    change(&mut page, at, bits);
    judge_iag(&set, 7, &page).canonical
}
