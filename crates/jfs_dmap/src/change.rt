//! Blocks of a dmap page are taken and given back.

ghost use Rattle.std.specs.Prelude.{◌≡◌, ◌+◌, ◌≤◌, ◌||◌, ◌&&◌, true, not, ℕ};
ghost use Rattle.jfs_bits.specs.Bits.{is_free, is_in_run, is_full};
ghost use Rattle.jfs_dmap.specs.Dmap.{blocks_of, first_block_of, taken_in, IsDmap};

use crate::layout::{FREE, PERSISTENT_MAP, WORKING_MAP};
use crate::words::{clear_in, mark_in, refresh};
use jfs_bits::{get_u32, put_u32};
use jfs_disk::Page;

/// Takes the `n` free blocks from block `first` of a canonical page on. Only the leaves of the run's words and of the runs
/// that they split, and the nodes above them, are visited.
pub fn dmap_mark(page: &mut Page, first: u32, n: u32)
    requires canonical { IsDmap page.old.0 }
    requires within { first + n ≤ 8192 }
    requires free { is_free (taken_in page.old.0) first n ≡ true }
    ensures canonical { IsDmap page.new.0 }
    ensures set { (b : ℕ) → taken_in page.new.0 b ≡ (is_in_run first n b || taken_in page.old.0 b) }
    ensures blocks { blocks_of page.new.0 ≡ blocks_of page.old.0 }
    ensures first_block { first_block_of page.new.0 ≡ first_block_of page.old.0 }
{
    let bytes: &mut [u8] = &mut page.0;
    mark_in(bytes, WORKING_MAP, first, n);
    mark_in(bytes, PERSISTENT_MAP, first, n);
    let free = get_u32(bytes, FREE);
    put_u32(bytes, FREE, free - n);
    refresh(bytes, first / 32, (first + n + 31) / 32);
}

/// Gives back the `n` taken blocks from block `first` of a canonical page on. Only the leaves of the run's words and of the runs
/// that they join, and the nodes above them, are visited.
pub fn dmap_clear(page: &mut Page, first: u32, n: u32)
    requires canonical { IsDmap page.old.0 }
    requires within { first + n ≤ blocks_of page.old.0 }
    requires taken { is_full (taken_in page.old.0) first n ≡ true }
    ensures canonical { IsDmap page.new.0 }
    ensures set { (b : ℕ) → taken_in page.new.0 b ≡ (not (is_in_run first n b) && taken_in page.old.0 b) }
    ensures blocks { blocks_of page.new.0 ≡ blocks_of page.old.0 }
    ensures first_block { first_block_of page.new.0 ≡ first_block_of page.old.0 }
{
    let bytes: &mut [u8] = &mut page.0;
    clear_in(bytes, WORKING_MAP, first, n);
    clear_in(bytes, PERSISTENT_MAP, first, n);
    let free = get_u32(bytes, FREE);
    put_u32(bytes, FREE, free + n);
    refresh(bytes, first / 32, (first + n + 31) / 32);
}
