//! Sets of blocks as maps of 32-bit little-endian words, a bit a block.

ghost use Rattle.std.specs.Prelude.{◌≡◌, ◌+◌, ◌-◌, ◌*◌, ◌/◌, ◌%◌, ◌^◌, ◌<◌, ◌≤◌, ◌||◌, ◌&&◌, ◌==◌, nat_le, nat_lt, not, length, ℕ};
ghost use Rattle.jfs_bits.specs.Bits.{is_taken, is_taken_in, is_in_run, IsLowestFree, max_bud_of};

use crate::field::{get_u32, put_u32};

/// Whether block `i` is taken.
pub fn bit(map: &[u8], i: u32) -> bool
    requires whole_words { length map.now % 4 ≡ 0 }
    requires within { i < 8 * length map.now }
    ensures { result ≡ is_taken map.now i }
{
    let word = get_u32(map, 4 * (i / 32) as usize);
    (word >> (31 - i % 32)) & 1 == 1
}

/// The bits of those blocks of word `w` that lie from `first` to before `end`.
fn mask_of(w: u64, first: u64, end: u64) -> u32
    requires order { first ≤ end }
    requires few { w < 2 ^ 32 }
    ensures { (i : ℕ) → i < 32 → is_taken_in result i ≡ (nat_le first (32 * w + i) && nat_lt (32 * w + i) end) }
{
    let from = first.max(32 * w).min(32 * w + 32) - 32 * w;
    let to = end.max(32 * w).min(32 * w + 32) - 32 * w;
    ((1u64 << (32 - from)) - (1u64 << (32 - to))) as u32
}

/// Marks blocks of word `w` as taken, by their bits.
fn set_in_word(map: &mut [u8], w: u64, mask: u32)
    requires whole_words { length map.old % 4 ≡ 0 }
    requires within { 4 * w < length map.old }
    ensures { (b : ℕ) → is_taken map.new b ≡ (b / 32 == w && is_taken_in mask (b % 32) || is_taken map.old b) }
{
    let at = 4 * w as usize;
    let word = get_u32(map, at);
    put_u32(map, at, word | mask);
}

/// Marks blocks of word `w` as free, by their bits.
fn clear_in_word(map: &mut [u8], w: u64, mask: u32)
    requires whole_words { length map.old % 4 ≡ 0 }
    requires within { 4 * w < length map.old }
    ensures { (b : ℕ) → is_taken map.new b ≡ (not (b / 32 == w && is_taken_in mask (b % 32)) && is_taken map.old b) }
{
    let at = 4 * w as usize;
    let word = get_u32(map, at);
    put_u32(map, at, word & !mask);
}

/// Marks the `n` blocks from `first` on as taken; all others stay.
pub fn set_run(map: &mut [u8], first: u32, n: u32)
    requires whole_words { length map.old % 4 ≡ 0 }
    requires within { first + n ≤ 8 * length map.old }
    ensures { (b : ℕ) → is_taken map.new b ≡ (is_in_run first n b || is_taken map.old b) }
{
    let first = u64::from(first);
    let end = first + u64::from(n);
    for w in first / 32..end.div_ceil(32) {
        set_in_word(map, w, mask_of(w, first, end));
    }
}

/// Marks the `n` blocks from `first` on as free; all others stay.
pub fn clear_run(map: &mut [u8], first: u32, n: u32)
    requires whole_words { length map.old % 4 ≡ 0 }
    requires within { first + n ≤ 8 * length map.old }
    ensures { (b : ℕ) → is_taken map.new b ≡ (not (is_in_run first n b) && is_taken map.old b) }
{
    let first = u64::from(first);
    let end = first + u64::from(n);
    for w in first / 32..end.div_ceil(32) {
        clear_in_word(map, w, mask_of(w, first, end));
    }
}

/// The first block of the lowest free aligned run of `2^l2` blocks of a word; None exactly where there is none.
pub fn lowest_run(word: u32, l2: u32) -> Option<u32>
    requires { l2 ≤ 5 }
    ensures { IsLowestFree (is_taken_in word) (2 ^ (5 - l2)) l2 result }
{
    let size = 1u32 << l2;
    for j in 0..32 / size {
        let above = u64::from(word) >> (32 - (j + 1) * size);
        if above % (1u64 << size) == 0 {
            return Some(j * size);
        }
    }
    None
}

/// A word's maximal buddy: the greatest `k` for which an aligned run of `2^k` of its blocks is free, so 5 where all
/// are and 4 where a half is; -1 where none is. (JFS Layout, block map.)
pub fn max_bud(word: u32) -> i8
    ensures { result ≡ max_bud_of word }
{
    for below in 0..6u8 {
        let l2 = 5 - below;
        if lowest_run(word, u32::from(l2)).is_some() {
            return l2 as i8;
        }
    }
    -1
}
