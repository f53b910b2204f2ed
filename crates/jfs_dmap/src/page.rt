//! The canonical dmap page of a set of blocks.

ghost use Rattle.std.specs.Prelude.{◌≡◌, ◌+◌, ◌-◌, ◌<◌, ◌≤◌, ◌||◌, if◌then◌else◌, length, not, ℕ};
ghost use Rattle.jfs_bits.specs.Field.{put_bytes, range_of};
ghost use Rattle.jfs_bits.specs.Piece.{puts};
ghost use Rattle.jfs_bits.specs.Bits.{is_taken, is_in_run, count_below};
ghost use Rattle.jfs_buddy.specs.Buddy.{IsBuddyTree};
ghost use Rattle.jfs_dmap.specs.Dmap.{blocks_of, first_block_of, head_of, tree_of, taken_in, IsDmap};

use crate::layout::{FREE, PERSISTENT_MAP, TREE, TREE_END, WORKING_MAP};
use crate::words::{mark_in, refresh};
use jfs_bits::{get_u32, put_u8, put_u32, put_u64};
use jfs_buddy::clear_tree;
use jfs_disk::Page;

/// Writes the canonical page of `nblocks` blocks from block `start` of the volume on, of which those in `set` are taken; a bit
/// for each block, in words as in the maps.
pub fn dmap_canonical(set: &[u8], start: u64, nblocks: u32, page: &mut Page)
    requires size { length set.now ≡ 1024 }
    requires most { nblocks ≤ 8192 }
    ensures canonical { IsDmap page.new.0 }
    ensures blocks { blocks_of page.new.0 ≡ nblocks }
    ensures first_block { first_block_of page.new.0 ≡ start }
    ensures set { (b : ℕ) → b < nblocks → taken_in page.new.0 b ≡ is_taken set.now b }
{
    let bytes: &mut [u8] = &mut page.0;
    bytes.fill(0);
    put_head(bytes, start, nblocks);
    put_map(bytes, WORKING_MAP, set, nblocks);
    put_map(bytes, PERSISTENT_MAP, set, nblocks);
    let free = count_free(&bytes[WORKING_MAP..PERSISTENT_MAP]);
    put_u32(bytes, FREE, free);
    clear(bytes);
    refresh(bytes, 0, 256);
}

/// Puts the fields that do not follow from the set.
fn put_head(bytes: &mut [u8], start: u64, nblocks: u32)
    requires { length bytes.old ≡ 4096 }
    ensures { bytes.new ≡ puts (head_of start nblocks) bytes.old }
{
    put_u32(bytes, 0, nblocks);
    put_u64(bytes, 8, start);
    put_u32(bytes, 16, 256);
    put_u32(bytes, 20, 8);
    put_u32(bytes, 24, 85);
    put_u32(bytes, 28, 4);
    put_u8(bytes, 32, 5);
}

/// Puts a map at `at`: the set's blocks, and all from `nblocks` on.
fn put_map(bytes: &mut [u8], at: usize, set: &[u8], nblocks: u32)
    requires place { at + 1024 ≤ length bytes.old }
    requires size { length set.now ≡ 1024 }
    requires most { nblocks ≤ 8192 }
    ensures set { (b : ℕ) → is_taken (range_of bytes.new at 1024) b ≡ (is_in_run nblocks (8192 - nblocks) b || is_taken set.now b) }
    ensures stays { bytes.new ≡ put_bytes at (range_of bytes.new at 1024) bytes.old }
{
    bytes[at..at + 1024].copy_from_slice(set);
    mark_in(bytes, at, nblocks, 8192 - nblocks);
}

/// The number of free blocks of a map.
fn count_free(map: &[u8]) -> u32
    requires { length map.now ≡ 1024 }
    ensures { result ≡ count_below 8192 (λ b. not (is_taken map.now b)) }
{
    let mut free = 0;
    for word in 0..256 {
        free += get_u32(map, 4 * word).count_zeros();
    }
    free
}

/// Puts the tree without a free block.
fn clear(bytes: &mut [u8])
    requires { length bytes.old ≡ 4096 }
    ensures tree { IsBuddyTree 4 6 (λ v. 0) (tree_of bytes.new) }
    ensures stays { bytes.new ≡ put_bytes 33 (tree_of bytes.new) bytes.old }
{
    clear_tree(&mut bytes[TREE..TREE_END], 4, 6);
}
