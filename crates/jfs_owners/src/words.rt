//! Sets of bits by their words: runs of blocks counted in two of them, and the bits of one counted.

ghost use Rattle.std.specs.Prelude.{◌≡◌, ◌+◌, ◌*◌, ◌/◌, ◌%◌, ◌<◌, ◌≤◌, ◌&&◌, ◌||◌, ◌==◌, nat_le, nat_lt, ◌^◌, length, ℕ, true};
ghost use Rattle.jfs_bits.specs.Bits.{is_taken, is_taken_in, is_in_run, count_below};
ghost use Rattle.jfs_owners.specs.Passed.{AreGroups, PassesShared};

use crate::passed::{first_open, is_shared_group};
use jfs_bits::{get_u32, put_u32};

/// The bits of the blocks of a word from `from` to before `to`.
fn mask_of(from: u32, to: u32) -> u32
    requires order { from ≤ to }
    requires within { to ≤ 32 }
    ensures { (i : ℕ) → i < 32 → is_taken_in result i ≡ (nat_le from i && nat_lt i to) }
{
    ((1u64 << (32 - from)) - (1u64 << (32 - to))) as u32
}

/// Counts blocks of word `w` once more, by their bits.
fn add_in_word(owned: &mut [u8], shared: &mut [u8], w: u64, mask: u32)
    requires whole_words { length owned.old % 4 ≡ 0 }
    requires same { length shared.old ≡ length owned.old }
    requires within { 4 * w < length owned.old }
    ensures owned { (b : ℕ) → is_taken owned.new b ≡ (b / 32 == w && is_taken_in mask (b % 32) || is_taken owned.old b) }
    ensures shared { (b : ℕ) → is_taken shared.new b ≡ (b / 32 == w && is_taken_in mask (b % 32) && is_taken owned.old b || is_taken shared.old b) }
{
    let at = 4 * w as usize;
    let word = get_u32(owned, at);
    let twice = get_u32(shared, at);
    put_u32(shared, at, twice | (word & mask));
    put_u32(owned, at, word | mask);
}

/// Counts the blocks from `first` to before `end` once more, word by word.
fn add_part(owned: &mut [u8], shared: &mut [u8], first: u64, end: u64)
    requires whole_words { length owned.old % 4 ≡ 0 }
    requires same { length shared.old ≡ length owned.old }
    requires order { first ≤ end }
    requires within { end ≤ 8 * length owned.old }
    requires small { end < 2 ^ 33 }
    ensures owned { (b : ℕ) → is_taken owned.new b ≡ ((nat_le first b && nat_lt b end) || is_taken owned.old b) }
    ensures shared { (b : ℕ) → is_taken shared.new b ≡ ((nat_le first b && nat_lt b end) && is_taken owned.old b || is_taken shared.old b) }
{
    for w in first / 32..end.div_ceil(32) {
        let from = first.max(32 * w) - 32 * w;
        let to = end.min(32 * w + 32) - 32 * w;
        add_in_word(owned, shared, w, mask_of(from as u32, to as u32));
    }
}

#[tactic(auto, using(crate::proofs::Passes::in_part))]
/// Counts the blocks of a group that lie from `first` to before `end` once more. Where they are all of the group, and all have two owners now, the group is passed over from now on.
fn add_in_group(
    owned: &mut [u8],
    shared: &mut [u8],
    later: &mut [u32],
    first: u32,
    end: u32,
    group: u32,
)
    requires whole_words { length owned.old % 4 ≡ 0 }
    requires same { length shared.old ≡ length owned.old }
    requires within { end ≤ 8 * length owned.old }
    requires groups { end ≤ 1024 * length later.old }
    requires fits { length later.old < 4294967296 }
    requires from { first ≤ end }
    requires meets { (1024 * group < end) × (first < 1024 * group + 1024) }
    requires ends { AreGroups later.old }
    ensures owned { (b : ℕ) → is_taken owned.new b ≡ ((nat_le first b && nat_lt b end) && is_in_run (1024 * group) 1024 b || is_taken owned.old b) }
    ensures shared { (b : ℕ) → is_taken shared.new b ≡ ((nat_le first b && nat_lt b end) && is_in_run (1024 * group) 1024 b && is_taken owned.old b || is_taken shared.old b) }
    ensures ends { AreGroups later.new }
    ensures passes { PassesShared shared.old later.old → PassesShared shared.new later.new }
    ensures size { length later.new ≡ length later.old }
{
    let start = 1024 * u64::from(group);
    let past = start + 1024;
    let to = u64::from(end);
    add_part(owned, shared, start.max(u64::from(first)), past.min(to));
    if past <= to && is_shared_group(shared, group) {
        later[group as usize] = group + 1;
    }
}

/// Counts the blocks from `first` to before `end` once more. Groups of blocks that all have two owners are passed over: nothing changes there.
pub(crate) fn add_run(owned: &mut [u8], shared: &mut [u8], later: &mut [u32], first: u32, end: u32)
    requires whole_words { length owned.old % 4 ≡ 0 }
    requires same { length shared.old ≡ length owned.old }
    requires order { first ≤ end }
    requires within { end ≤ 8 * length owned.old }
    requires groups { end ≤ 1024 * length later.old }
    requires fits { length later.old < 4294967296 }
    requires nested { (b : ℕ) → is_taken shared.old b ≡ true → is_taken owned.old b ≡ true }
    requires ends { AreGroups later.old }
    requires passes { PassesShared shared.old later.old }
    ensures owned { (b : ℕ) → is_taken owned.new b ≡ ((nat_le first b && nat_lt b end) || is_taken owned.old b) }
    ensures shared { (b : ℕ) → is_taken shared.new b ≡ ((nat_le first b && nat_lt b end) && is_taken owned.old b || is_taken shared.old b) }
    ensures ends { AreGroups later.new }
    ensures passes { PassesShared shared.new later.new }
    ensures size { length later.new ≡ length later.old }
{
    let mut group = first_open(later, first / 1024);
    while 1024 * u64::from(group) < u64::from(end) {
        add_in_group(owned, shared, later, first, end, group);
        group = first_open(later, group + 1);
    }
}

/// How many of the first `n` bits of a set are set, which has a bit for each block in 32-bit little-endian words as the block map has.
pub fn count_taken(set: &[u8], n: u32) -> u32
    requires words { length set.now % 4 ≡ 0 }
    requires within { n ≤ 8 * length set.now }
    ensures { result ≡ count_below n (is_taken set.now) }
{
    let mut count = 0;
    for w in 0..n.div_ceil(32) {
        let first = 32 * w;
        let mask = mask_of(0, (n - first).min(32));
        count += (get_u32(set, 4 * w as usize) & mask).count_ones();
    }
    count
}
