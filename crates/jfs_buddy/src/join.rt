//! Buddies: one leaf's own rank changes, and the runs that have the leaf are split or joined.

ghost use Rattle.std.specs.Prelude.{◌≡◌, ◌≢◌, ◌+◌, ◌*◌, ◌^◌, ◌<◌, ◌≤◌, ◌↔◌, length, ℕ, IfSome, IsTrue, MatchOption, suc};
ghost use Rattle.jfs_buddy.specs.Tree.{first_of, leaves_of, leaf_at, HasMaxima};
ghost use Rattle.jfs_buddy.specs.Buddy.{start_of, with_own, HalvesPut, HalvesShow, Level, IsLowestRun, IsBuddyTree};

use crate::tree::{find_leaf, leaf_rank, put_leaf};

/// Makes a tree without a free block.
pub fn clear_tree(tree: &mut [u8], height: u32, whole: u8)
    requires { length tree.old ≡ first_of (suc height) }
    ensures { 0 < whole → IsBuddyTree height whole (λ v. 0) tree.new }
{
    tree.fill(255);
}

/// The lowest leaf at which a free run of a rank lies, found from the root down; None exactly where there is none.
pub fn find_run(tree: &[u8], height: u32, whole: u8, rank: u8) -> Option<u32>
    requires size { length tree.now ≡ first_of (suc height) }
    requires few { height < 16 }
    requires inner { HasMaxima tree.now }
    requires some { 0 < rank }
    requires whole { 0 < whole }
    requires most { rank ≤ whole + 2 * height }
    ensures { (own : ℕ → ℕ) → IsBuddyTree height whole own tree.now → IsLowestRun height own whole rank result }
{
    find_leaf(tree, height, rank)
}

/// Where the aligned run of `2^k` leaves begins that has a leaf.
fn start(leaf: u32, k: u32) -> u32
    requires { k < 32 }
    ensures { result ≡ start_of k leaf }
{
    (leaf >> k) << k
}

/// The `l2` of the number of leaves in the greatest wholly free run that has a leaf; None where the leaf isn't wholly free.
fn level_of(tree: &[u8], height: u32, whole: u8, leaf: u32) -> Option<u32>
    requires size { length tree.now ≡ first_of (suc height) }
    requires few { height < 16 }
    requires ranks { whole + 2 * height < 256 }
    requires within { leaf < leaves_of height }
    ensures most { IfSome result (λ k. k ≤ 2 * height) }
    ensures level { (own : ℕ → ℕ) → 0 < whole → IsBuddyTree height whole own tree.now → MatchOption result (own leaf ≢ whole) (λ k. (own leaf ≡ whole) × Level own whole (2 * height) leaf k) }
{
    for k in 0..2 * height + 1 {
        if leaf_rank(tree, height, start(leaf, k)) == whole + k as u8 {
            return Some(k);
        }
    }
    None
}

/// Gives ranks to the first leaves of the two halves of the run of `2^(k + 1)` leaves that has a leaf.
fn put_halves(tree: &mut [u8], height: u32, leaf: u32, k: u32, left: u8, right: u8)
    requires size { length tree.old ≡ first_of (suc height) }
    requires few { height < 16 }
    requires within { leaf < leaves_of height }
    requires most { k < 2 * height }
    ensures leaves { HalvesPut k leaf left right (leaf_at height tree.old) (leaf_at height tree.new) }
    ensures inner { HasMaxima tree.old → HasMaxima tree.new }
{
    let begin = start(leaf, k + 1);
    put_leaf(tree, height, begin, left);
    put_leaf(tree, height, begin + (1 << k), right);
}

/// Whether the first leaves of those two halves have this rank.
fn shows_halves(tree: &[u8], height: u32, leaf: u32, k: u32, half: u8) -> bool
    requires size { length tree.now ≡ first_of (suc height) }
    requires few { height < 16 }
    requires within { leaf < leaves_of height }
    requires most { k < 2 * height }
    ensures { IsTrue result ↔ HalvesShow k leaf half (leaf_at height tree.now) }
{
    let begin = start(leaf, k + 1);
    let left = leaf_rank(tree, height, begin);
    let right = leaf_rank(tree, height, begin + (1 << k));
    left == half && right == half
}

/// Splits the wholly free run of `2^level` leaves that has a leaf, and gives the leaf its own rank.
fn split(tree: &mut [u8], height: u32, whole: u8, leaf: u32, level: u32, rank: u8)
    requires size { length tree.old ≡ first_of (suc height) }
    requires few { height < 16 }
    requires ranks { whole + 2 * height < 256 }
    requires within { leaf < leaves_of height }
    requires most { level ≤ 2 * height }
    ensures { (own : ℕ → ℕ) → own leaf ≡ whole → rank < whole → Level own whole (2 * height) leaf level → IsBuddyTree height whole own tree.old → IsBuddyTree height whole (with_own own leaf rank) tree.new }
{
    for below in 0..level {
        let k = level - 1 - below;
        let half = whole + k as u8;
        put_halves(tree, height, leaf, k, half, half);
    }
    put_leaf(tree, height, leaf, rank);
}

/// Makes a leaf wholly free that wasn't, and joins it with its buddies as far as they are wholly free.
fn join(tree: &mut [u8], height: u32, whole: u8, leaf: u32)
    requires size { length tree.old ≡ first_of (suc height) }
    requires few { height < 16 }
    requires ranks { whole + 2 * height < 256 }
    requires within { leaf < leaves_of height }
    ensures { (own : ℕ → ℕ) → 0 < whole → own leaf ≢ whole → IsBuddyTree height whole own tree.old → IsBuddyTree height whole (with_own own leaf whole) tree.new }
{
    put_leaf(tree, height, leaf, whole);
    for k in 0..2 * height {
        let half = whole + k as u8;
        if !shows_halves(tree, height, leaf, k, half) {
            return;
        }
        put_halves(tree, height, leaf, k, half + 1, 0);
    }
}

/// Gives a leaf its own rank, at most that of a wholly free leaf.
pub fn set_leaf(tree: &mut [u8], height: u32, whole: u8, leaf: u32, rank: u8)
    requires size { length tree.old ≡ first_of (suc height) }
    requires few { height < 16 }
    requires ranks { whole + 2 * height < 256 }
    requires within { leaf < leaves_of height }
    ensures { (own : ℕ → ℕ) → 0 < whole → rank ≤ whole → IsBuddyTree height whole own tree.old → IsBuddyTree height whole (with_own own leaf rank) tree.new }
{
    match level_of(tree, height, whole, leaf) {
        Some(level) => {
            if rank != whole {
                split(tree, height, whole, leaf, level, rank);
            }
        }
        None => {
            if rank == whole {
                join(tree, height, whole, leaf);
            } else {
                put_leaf(tree, height, leaf, rank);
            }
        }
    }
}
