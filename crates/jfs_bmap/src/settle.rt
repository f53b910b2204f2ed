//! Busy blocks get free once their entries are durable.

ghost use Rattle.std.specs.Prelude.{◌≡◌, ◌<◌, ◌≤◌, ◌+◌, ◌^◌, ◌&&◌, not, length, ℕ};
ghost use Rattle.std.specs.BinaryHeap.{heap_items, heap_len, heap_capacity};
ghost use Rattle.jfs_bits.specs.Bits.{is_in_run, is_full};
ghost use Rattle.jfs_bmap.specs.Set.{taken_at};
ghost use Rattle.jfs_bmap.specs.Freed.{is_due};
ghost use Rattle.jfs_bmap.specs.Kept.{ArePending};

use crate::entries::{Piece, entry_of};
use crate::freed::{Freed, pop_told};
use crate::map_pages::MapPages;
use std::cmp::Reverse;
use std::collections::BinaryHeap;

/// Frees the busy blocks whose entries are acknowledged as durable, and drops the runs of these entries. Visits no other run.
pub fn free_told(
    freed: &mut BinaryHeap<Reverse<Freed>>,
    entries: &[Piece],
    told: u64,
    held: &MapPages,
    used: &mut MapPages,
)
    requires same { length held.now ≡ length used.old }
    requires pending { ArePending held.now used.old entries.now (heap_items freed.old) }
    ensures pending { ArePending held.now used.new entries.now (heap_items freed.new) }
    ensures blocks { length used.new ≡ length used.old }
    ensures used { (b : ℕ) → taken_at used.new b ≡ (taken_at used.old b && not (is_due held.now entries.now told b)) }
    ensures fewer { heap_len freed.new ≤ heap_len freed.old }
    ensures capacity { heap_capacity freed.new ≡ heap_capacity freed.old }
{
    while let Some(run) = pop_told(freed, told) {
        free_blocks(entries, told, held, used, run.first, run.blocks);
    }
}

/// Frees those of one run's busy blocks whose entries are acknowledged.
fn free_blocks(
    entries: &[Piece],
    told: u64,
    held: &MapPages,
    used: &mut MapPages,
    first: u32,
    n: u32,
)
    requires same { length held.now ≡ length used.old }
    requires within { first + n ≤ length used.old }
    ensures blocks { length used.new ≡ length used.old }
    ensures used { (b : ℕ) → taken_at used.new b ≡ (taken_at used.old b && not (is_in_run first n b && is_due held.now entries.now told b)) }
{
    // at most 2^23, so that the number of each block of the run is a u32
    let _ = used.blocks();
    // the usual case, as a whole run again
    if are_settled(entries, told, held, used, first, n) {
        used.clear(first, n);
    } else {
        for i in 0..n {
            let b = first + i;
            if is_settled(entries, told, held, used, b) {
                used.clear(b, 1);
            }
        }
    }
}

/// Whether a block is busy for an entry that is acknowledged.
fn is_settled(entries: &[Piece], told: u64, held: &MapPages, used: &MapPages, b: u32) -> bool
    ensures { result ≡ (taken_at used.now b && is_due held.now entries.now told b) }
{
    used.is_taken(b) && !held.is_taken(b) && entry_of(entries, b) <= told
}

/// Whether each block of a run is busy for such an entry.
fn are_settled(
    entries: &[Piece],
    told: u64,
    held: &MapPages,
    used: &MapPages,
    first: u32,
    n: u32,
) -> bool
    requires { first + n ≤ 2 ^ 23 }
    ensures { result ≡ is_full (λ b. taken_at used.now b && is_due held.now entries.now told b) first n }
{
    for i in 0..n {
        if !is_settled(entries, told, held, used, first + i) {
            return false;
        }
    }
    true
}
