//! What a canonical dmap page tells of its blocks.

ghost use Rattle.std.specs.Prelude.{◌≡◌, ◌<◌, not};
ghost use Rattle.jfs_dmap.specs.Dmap.{taken_in, IsDmap};
ghost use Rattle.jfs_bits.specs.Bits.{greatest_run, count_below};

use crate::layout::{FREE, PERSISTENT_MAP, TREE, WORKING_MAP};
use jfs_bits::{bit, get_u8, get_u32};
use jfs_disk::Page;

/// Whether block `b` of a page is taken.
pub fn dmap_is_taken(page: &Page, b: u32) -> bool
    requires { b < 8192 }
    ensures { result ≡ taken_in page.now.0 b }
{
    let bytes: &[u8] = &page.0;
    bit(&bytes[WORKING_MAP..PERSISTENT_MAP], b)
}

/// The number of free blocks of a canonical page.
pub fn dmap_free(page: &Page) -> u32
    requires { IsDmap page.now.0 }
    ensures { result ≡ count_below 8192 (λ b. not (taken_in page.now.0 b)) }
{
    let bytes: &[u8] = &page.0;
    get_u32(bytes, FREE)
}

/// The l2 of the greatest free aligned run of a canonical page, -1 where no block is free: the value at its tree's root.
pub fn dmap_root(page: &Page) -> i8
    requires { IsDmap page.now.0 }
    ensures { result ≡ greatest_run (taken_in page.now.0) 13 13 }
{
    let bytes: &[u8] = &page.0;
    get_u8(bytes, TREE).cast_signed()
}
