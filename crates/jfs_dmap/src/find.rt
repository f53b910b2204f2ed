//! The lowest free run of a dmap page.

ghost use Rattle.std.specs.Prelude.{◌/◌, ◌^◌};
ghost use Rattle.jfs_bits.specs.Bits.{IsLowestFree};
ghost use Rattle.jfs_dmap.specs.Dmap.{taken_in, IsDmap};

use crate::layout::{TREE, TREE_END, WORKING_MAP};
use jfs_bits::{get_u32, lowest_run};
use jfs_buddy::find_run;
use jfs_disk::Page;

/// The first block of the lowest free aligned run of `2^l2` blocks of a canonical page, found from the tree's root down;
/// None exactly where there is none.
pub fn dmap_find(page: &Page, l2: u32) -> Option<u32>
    requires { IsDmap page.now.0 }
    ensures { IsLowestFree (taken_in page.now.0) (8192 / 2 ^ l2) l2 result }
{
    if l2 > 13 {
        return None;
    }
    let bytes: &[u8] = &page.0;
    let word = find_run(&bytes[TREE..TREE_END], 4, 6, l2 as u8 + 1)?;
    if l2 >= 5 {
        return Some(32 * word);
    }
    let run = lowest_run(get_u32(bytes, WORKING_MAP + 4 * word as usize), l2)?;
    Some(32 * word + run)
}
