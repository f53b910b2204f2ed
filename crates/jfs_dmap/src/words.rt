//! The words of a page's maps, and the leaves over them.

ghost use Rattle.std.specs.Prelude.{◌≡◌, ◌+◌, ◌*◌, ◌<◌, ◌≤◌, ◌||◌, ◌&&◌, ◌⊎◌, not, length, ℕ};
ghost use Rattle.jfs_bits.specs.Field.{put_bytes, range_of};
ghost use Rattle.jfs_bits.specs.Bits.{is_taken, is_in_run, max_bud_of};
ghost use Rattle.jfs_buddy.specs.Buddy.{with_own, IsBuddyTree};
ghost use Rattle.jfs_buddy.specs.Tree.{rank_of};
ghost use Rattle.jfs_dmap.specs.Dmap.{map_of, tree_of, word_rank};

use crate::layout::{TREE, TREE_END, WORKING_MAP};
use jfs_bits::{clear_run, get_u32, max_bud, set_run};
use jfs_buddy::{rank_of_value, set_leaf};

/// Marks blocks as taken in the map at `at`.
pub fn mark_in(bytes: &mut [u8], at: usize, first: u32, n: u32)
    requires place { at + 1024 ≤ length bytes.old }
    requires within { first + n ≤ 8192 }
    ensures set { (b : ℕ) → is_taken (range_of bytes.new at 1024) b ≡ (is_in_run first n b || is_taken (range_of bytes.old at 1024) b) }
    ensures stays { bytes.new ≡ put_bytes at (range_of bytes.new at 1024) bytes.old }
{
    set_run(&mut bytes[at..at + 1024], first, n);
}

/// Marks blocks as free in the map at `at`.
pub fn clear_in(bytes: &mut [u8], at: usize, first: u32, n: u32)
    requires place { at + 1024 ≤ length bytes.old }
    requires within { first + n ≤ 8192 }
    ensures set { (b : ℕ) → is_taken (range_of bytes.new at 1024) b ≡ (not (is_in_run first n b) && is_taken (range_of bytes.old at 1024) b) }
    ensures stays { bytes.new ≡ put_bytes at (range_of bytes.new at 1024) bytes.old }
{
    clear_run(&mut bytes[at..at + 1024], first, n);
}

/// The rank of a word's maximal buddy.
fn rank_of_word(word: u32) -> u8
    ensures { result ≡ rank_of (max_bud_of word) }
{
    rank_of_value(max_bud(word))
}

/// Gives a word's leaf the rank that the working map says.
fn set_word(bytes: &mut [u8], word: u32)
    requires size { length bytes.old ≡ 4096 }
    requires within { word < 256 }
    ensures tree { (own : ℕ → ℕ) → IsBuddyTree 4 6 own (tree_of bytes.old) → IsBuddyTree 4 6 (with_own own word (word_rank (map_of bytes.old) word)) (tree_of bytes.new) }
    ensures stays { bytes.new ≡ put_bytes 33 (tree_of bytes.new) bytes.old }
{
    let rank = rank_of_word(get_u32(bytes, WORKING_MAP + 4 * word as usize));
    set_leaf(&mut bytes[TREE..TREE_END], 4, 6, word, rank);
}

/// Gives the leaves of the words from `first` to before `last` their ranks.
pub fn refresh(bytes: &mut [u8], first: u32, last: u32)
    requires size { length bytes.old ≡ 4096 }
    requires within { last ≤ 256 }
    ensures tree { (own : ℕ → ℕ) → ((v : ℕ) → v < 256 → (v < first) ⊎ (last ≤ v) → own v ≡ word_rank (map_of bytes.old) v) → IsBuddyTree 4 6 own (tree_of bytes.old) → IsBuddyTree 4 6 (word_rank (map_of bytes.old)) (tree_of bytes.new) }
    ensures stays { bytes.new ≡ put_bytes 33 (tree_of bytes.new) bytes.old }
{
    for word in first..last {
        set_word(bytes, word);
    }
}
