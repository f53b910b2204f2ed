//! Runs that entries released.

ghost use Rattle.std.specs.Prelude.{◌≡◌, ◌<◌, ◌≤◌, ◌+◌, ◌∷◌, length, ℕ, IfSome, IfNone, OnSome};
ghost use Rattle.std.specs.List.{All};
ghost use Rattle.std.specs.List.Sorted.{IsPermutation};
ghost use Rattle.std.specs.BinaryHeap.{heap_items, heap_len, heap_capacity};
ghost use Rattle.jfs_bits.specs.Bits.{is_in_run};
ghost use Rattle.jfs_bmap.specs.Freed.{covers, runs_in, IsInOrder};

use jfs_bits::Pxd;
use std::cmp::Reverse;
use std::collections::BinaryHeap;

/// A run of blocks that an entry released. Runs are ordered by their entries.
#[derive(Clone, Copy, PartialEq, Eq, PartialOrd, Ord)]
pub struct Freed {
    pub entry: u64,
    pub first: u32,
    pub blocks: u32,
}

/// The part of a run that lies within the volume.
pub fn clip(run: &Pxd, blocks: u32, entry: u64) -> Freed
    ensures within { result.first + result.blocks ≤ blocks }
    ensures entry { result.entry ≡ entry }
    ensures part { (b : ℕ) → b < blocks → covers result b ≡ is_in_run run.now.addr run.now.len b }
{
    let end = run.addr.saturating_add(u64::from(run.len));
    let first = run.addr.min(u64::from(blocks)) as u32;
    let end = end.min(u64::from(blocks)) as u32;
    Freed {
        entry,
        first,
        blocks: end - first,
    }
}

/// Takes out the run of the lowest entry, if that is acknowledged as durable.
pub fn pop_told(freed: &mut BinaryHeap<Reverse<Freed>>, told: u64) -> Option<Freed>
    requires { IsInOrder (heap_items freed.old) }
    ensures order { IsInOrder (heap_items freed.new) }
    ensures told { IfSome result (λ run. run.entry ≤ told) }
    ensures others { IfSome result (λ run. IsPermutation (runs_in (heap_items freed.old)) (run ∷ runs_in (heap_items freed.new))) }
    ensures one { OnSome result (heap_len freed.new + 1 ≡ heap_len freed.old) }
    ensures none { IfNone result (All (λ run. told < run.entry) (runs_in (heap_items freed.old))) }
    ensures unchanged { IfNone result (heap_items freed.new ≡ heap_items freed.old) }
    ensures fewer { heap_len freed.new ≤ heap_len freed.old }
    ensures capacity { heap_capacity freed.new ≡ heap_capacity freed.old }
{
    if freed.peek()?.0.entry > told {
        return None;
    }
    let Reverse(run) = freed.pop()?;
    Some(run)
}
