//! Trees of ranks, four children to a node.

ghost use Rattle.std.specs.Prelude.{◌≡◌, ◌+◌, ◌*◌, ◌^◌, ◌<◌, ◌≤◌, ◌==◌, if◌then◌else◌, length, ℕ, MatchOption, suc};
ghost use Rattle.jfs_buddy.specs.Tree.{rank_of, rank_at, first_of, leaves_of, leaf_at, greatest_of, with_rank, HasMaxima, IsFirstFitting};

/// The rank of node `n`: its value plus 1.
fn rank(tree: &[u8], n: usize) -> u8
    requires { n < length tree.now }
    ensures value { result ≡ rank_at tree.now n }
    ensures fits { result < 2 ^ 8 }
{
    tree[n].wrapping_add(1)
}

/// The rank of a value.
pub fn rank_of_value(value: i8) -> u8
    ensures { result ≡ rank_of value }
{
    match u8::try_from(value) {
        Ok(l2) => l2 + 1,
        Err(_) => 0,
    }
}

/// The rank of a leaf.
pub(crate) fn leaf_rank(tree: &[u8], height: u32, leaf: u32) -> u8
    requires size { length tree.now ≡ first_of (suc height) }
    requires within { leaf < leaves_of height }
    ensures value { result ≡ leaf_at height tree.now leaf }
    ensures fits { result < 2 ^ 8 }
{
    rank(tree, tree.len() / 4 + leaf as usize)
}

/// Gives node `n` a rank, and returns the one that it had.
fn replace_rank(tree: &mut [u8], n: usize, now: u8) -> u8
    requires { n < length tree.old }
    ensures before { result ≡ rank_at tree.old n }
    ensures now { (m : ℕ) → rank_at tree.new m ≡ with_rank (rank_at tree.old) n now m }
{
    let before = rank(tree, n);
    tree[n] = now.wrapping_sub(1);
    before
}

/// The greatest rank of the four children of node `n`.
fn greatest_child(tree: &[u8], n: usize) -> u8
    requires { 4 * n + 4 < length tree.now }
    ensures { result ≡ greatest_of (rank_at tree.now) n }
{
    let left = rank(tree, 4 * n + 1).max(rank(tree, 4 * n + 2));
    let right = rank(tree, 4 * n + 3).max(rank(tree, 4 * n + 4));
    left.max(right)
}

/// The greatest rank of the four children of node `n` after that of one went from `before` to `now`. Mostly the node's own rank,
/// the greatest till then, tells it: to read all four right after one was written is slow.
fn greatest_now(tree: &[u8], n: usize, before: u8, now: u8) -> u8
    requires { 4 * n + 4 < length tree.now }
    ensures { (child : ℕ) → 4 * n + 1 ≤ child → child ≤ 4 * n + 4 → rank_at tree.now child ≡ now → rank_at tree.now n ≡ greatest_of (with_rank (rank_at tree.now) child before) n → result ≡ greatest_of (rank_at tree.now) n }
{
    let top = rank(tree, n);
    if now >= top {
        now
    } else if before < top {
        top
    } else {
        greatest_child(tree, n)
    }
}

/// Whether node `n` has a rank.
fn has_rank(tree: &[u8], n: usize, wanted: u8) -> bool
    requires { n < length tree.now }
    ensures { result ≡ (rank_at tree.now n == wanted) }
{
    rank(tree, n) == wanted
}

/// Gives a leaf a rank, and each node between it and the root the greatest of its children, up to one that has it already; all
/// other nodes stay.
pub(crate) fn put_leaf(tree: &mut [u8], height: u32, leaf: u32, rank: u8)
    requires size { length tree.old ≡ first_of (suc height) }
    requires within { leaf < leaves_of height }
    ensures leaves { (v : ℕ) → leaf_at height tree.new v ≡ (if leaf == v then rank else leaf_at height tree.old v) }
    ensures inner { HasMaxima tree.old → HasMaxima tree.new }
{
    let mut n = tree.len() / 4 + leaf as usize;
    let mut before = replace_rank(tree, n, rank);
    let mut now = rank;
    while n > 0 {
        n = (n - 1) / 4;
        now = greatest_now(tree, n, before, now);
        if has_rank(tree, n, now) {
            return;
        }
        before = replace_rank(tree, n, now);
    }
}

/// The lowest leaf whose rank is at least `least`, found from the root down; None exactly where no leaf's is.
pub(crate) fn find_leaf(tree: &[u8], height: u32, least: u8) -> Option<u32>
    requires size { length tree.now ≡ first_of (suc height) }
    requires few { height < 16 }
    requires inner { HasMaxima tree.now }
    ensures { MatchOption result
        ((v : ℕ) → v < leaves_of height → leaf_at height tree.now v < least)
        (λ leaf. (leaf < leaves_of height) × (least ≤ leaf_at height tree.now leaf) × ((v : ℕ) → v < leaf → leaf_at height tree.now v < least)) }
{
    if rank(tree, 0) < least {
        return None;
    }
    let mut n = 0;
    for depth in 0..height {
        n = first_fitting(tree, n, least);
    }
    Some((n - tree.len() / 4) as u32)
}

/// The lowest of the four children of node `n` whose rank is at least `least`; the last one where none before it fits.
fn first_fitting(tree: &[u8], n: usize, least: u8) -> usize
    requires { 4 * n + 4 < length tree.now }
    ensures { IsFirstFitting (rank_at tree.now) n least result }
{
    for i in 0..3 {
        if rank(tree, 4 * n + 1 + i) >= least {
            return 4 * n + 1 + i;
        }
    }
    4 * n + 4
}
