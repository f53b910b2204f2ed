//! The canonical control page of leaves.

ghost use Rattle.std.specs.Prelude.{◌≡◌, ◌+◌, ◌<◌, ◌≤◌, length, ℕ};
ghost use Rattle.jfs_bits.specs.Field.{put_bytes};
ghost use Rattle.jfs_bits.specs.Piece.{puts};
ghost use Rattle.jfs_buddy.specs.Buddy.{IsBuddyTree};
ghost use Rattle.jfs_dmapctl.specs.Control.{whole_of, head_of, tree_of, value_at, ranks_of, IsValue, IsControl};

use crate::layout::WHOLE;
use crate::part::{clear, set_rank};
use jfs_bits::{put_u8, put_u32};
use jfs_buddy::rank_of_value;
use jfs_disk::Page;

/// Writes the canonical page of a level, 0 to 2, whose leaves have these values, -1 to that of a wholly free leaf.
pub fn ctl_canonical(leaves: &[i8], level: u32, page: &mut Page)
    requires count { length leaves.now ≡ 1024 }
    requires level { level ≤ 2 }
    requires values { (v : ℕ) → IsValue level (value_at leaves.now v) }
    ensures { IsControl level (ranks_of leaves.now) page.new.0 }
{
    let bytes: &mut [u8] = &mut page.0;
    bytes.fill(0);
    put_head(bytes, level);
    clear(bytes, 14 + 10 * level as u8);
    put_leaves(bytes, level, leaves);
}

/// Puts the fields that do not follow from the leaves.
fn put_head(bytes: &mut [u8], level: u32)
    requires size { length bytes.old ≡ 4096 }
    requires level { level ≤ 2 }
    ensures { bytes.new ≡ puts (head_of level) bytes.old }
{
    put_u32(bytes, 0, 1024);
    put_u32(bytes, 4, 10);
    put_u32(bytes, 8, 341);
    put_u32(bytes, 12, 5);
    put_u8(bytes, WHOLE, 13 + 10 * level as u8);
}

/// The rank of leaf `v`.
fn rank_at(leaves: &[i8], level: u32, v: usize) -> u8
    requires within { v < length leaves.now }
    requires level { level ≤ 2 }
    requires values { (v : ℕ) → IsValue level (value_at leaves.now v) }
    ensures { result ≡ ranks_of leaves.now v }
{
    rank_of_value(leaves[v])
}

/// Gives each leaf its own rank.
fn put_leaves(bytes: &mut [u8], level: u32, leaves: &[i8])
    requires size { length bytes.old ≡ 4096 }
    requires count { length leaves.now ≡ 1024 }
    requires level { level ≤ 2 }
    requires values { (v : ℕ) → IsValue level (value_at leaves.now v) }
    ensures tree { IsBuddyTree 5 (whole_of level + 1) (λ v. 0) (tree_of bytes.old) → IsBuddyTree 5 (whole_of level + 1) (ranks_of leaves.now) (tree_of bytes.new) }
    ensures stays { bytes.new ≡ put_bytes 17 (tree_of bytes.new) bytes.old }
{
    let whole = 14 + 10 * level as u8;
    for v in 0..1024 {
        set_rank(bytes, whole, v, rank_at(leaves, level, v as usize));
    }
}
