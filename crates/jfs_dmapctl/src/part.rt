//! The tree within a control page.

ghost use Rattle.std.specs.Prelude.{◌≡◌, ◌<◌, ◌≤◌, length, ℕ};
ghost use Rattle.jfs_bits.specs.Field.{put_bytes};
ghost use Rattle.jfs_buddy.specs.Buddy.{with_own, IsBuddyTree};
ghost use Rattle.jfs_dmapctl.specs.Control.{tree_of};

use crate::layout::{TREE, TREE_END};
use jfs_buddy::{clear_tree, set_leaf};

/// Gives a leaf its own rank.
pub fn set_rank(bytes: &mut [u8], whole: u8, leaf: u32, rank: u8)
    requires size { length bytes.old ≡ 4096 }
    requires whole { whole < 246 }
    requires within { leaf < 1024 }
    ensures tree { (own : ℕ → ℕ) → 0 < whole → rank ≤ whole → IsBuddyTree 5 whole own (tree_of bytes.old) → IsBuddyTree 5 whole (with_own own leaf rank) (tree_of bytes.new) }
    ensures stays { bytes.new ≡ put_bytes 17 (tree_of bytes.new) bytes.old }
{
    set_leaf(&mut bytes[TREE..TREE_END], 5, whole, leaf, rank);
}

/// Puts the tree without a free block.
pub fn clear(bytes: &mut [u8], whole: u8)
    requires { length bytes.old ≡ 4096 }
    ensures tree { 0 < whole → IsBuddyTree 5 whole (λ v. 0) (tree_of bytes.new) }
    ensures stays { bytes.new ≡ put_bytes 17 (tree_of bytes.new) bytes.old }
{
    clear_tree(&mut bytes[TREE..TREE_END], 5, whole);
}
