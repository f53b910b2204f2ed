//! The entry that each busy block waits for.

ghost use Rattle.std.specs.Prelude.{◌≡◌, ◌<◌, ◌≤◌, ◌+◌, ◌*◌, [], if◌then◌else◌, length, slice_index_or, ℕ, IfOk, OnOk};
ghost use Rattle.jfs_bits.specs.Bits.{is_in_run};
ghost use Rattle.jfs_bmap.specs.declared.freed.Freed.{Freed};
ghost use Rattle.jfs_bmap.specs.Freed.{covers, entry_at};

use crate::freed::Freed;
use std::alloc::{AllocError, Global};
use std::marker::Model;

/// The blocks of one piece: those of a dmap.
const BLOCKS: usize = 8192;

/// The entries of the 8,192 blocks of a dmap, 0 at first. Its memory is taken when it is made, and written when the first of its
/// blocks gets an entry.
#[derive(Drop)]
pub struct Piece {
    /// None of them yet, or all.
    entries: Vec<u64>,
}

impl Model for Piece {
    ghost use Rattle.std.specs.Prelude.{◌≤◌, List, ℕ, vec_len, vec_capacity};

    ghost Value = { List ℕ };

    ghost view = { λ p. p.entries.items };

    ghost invariant = { λ p. (8192 ≤ vec_capacity p.entries) × (vec_len p.entries ≤ 8192) };
}

impl Piece {
    /// A piece without entries. `Err` is want of memory.
    pub fn new(alloc: Global) -> Result<Piece, AllocError>
        ensures { IfOk result (λ piece. piece ≡ []) }
    {
        Ok(Piece {
            entries: Vec::with_capacity(alloc, BLOCKS)?,
        })
    }

    /// The entry of block `i` of the piece.
    fn entry(&self, i: usize) -> u64
        ensures { result ≡ slice_index_or self.now i 0 }
    {
        self.entries.get(i).copied().unwrap_or(0)
    }

    /// Gives the `n` blocks from block `first` of the piece on an entry. Takes no memory.
    fn fill(&mut self, first: usize, n: usize, entry: u64)
        requires { first + n ≤ 8192 }
        ensures { (i : ℕ) → slice_index_or self.new i 0 ≡ (if is_in_run first n i then entry else slice_index_or self.old i 0) }
    {
        match self.entries.resize(BLOCKS, 0) {
            Ok(()) => {}
            Err(_) => unreachable!(),
        }
        fill_run(self.entries.as_mut_slice(), first, n, entry);
    }
}

/// Gives a run of blocks an entry.
fn fill_run(entries: &mut [u64], first: usize, n: usize, entry: u64)
    requires { first + n ≤ length entries.old }
    ensures { (i : ℕ) → slice_index_or entries.new i 0 ≡ (if is_in_run first n i then entry else slice_index_or entries.old i 0) }
{
    entries[first..first + n].fill(entry);
}

/// The entry of a block.
pub fn entry_of(pieces: &[Piece], b: u32) -> u64
    ensures { result ≡ entry_at pieces.now b }
{
    match pieces.get(b as usize / BLOCKS) {
        Some(piece) => piece.entry(b as usize % BLOCKS),
        None => 0,
    }
}

/// Gives each block of a run the run's entry. Takes no memory.
pub fn fill_entries(pieces: &mut [Piece], run: Freed)
    requires { run.first + run.blocks ≤ 8192 * length pieces.old }
    ensures { (b : ℕ) → entry_at pieces.new b ≡ (if covers run b then run.entry else entry_at pieces.old b) }
{
    let first = run.first as usize;
    let end = first + run.blocks as usize;
    for k in first / BLOCKS..end.div_ceil(BLOCKS) {
        let from = first.max(BLOCKS * k);
        let to = end.min(BLOCKS * (k + 1));
        pieces[k].fill(from - BLOCKS * k, to - from, run.entry);
    }
}

/// Makes the pieces of so many blocks. `Err` is want of memory. In both cases each block has the entry that it had.
pub fn make_pieces(pieces: &mut Vec<Piece>, alloc: Global, blocks: u32) -> Result<(), AllocError>
    ensures all { OnOk result (blocks ≤ 8192 * length pieces.new.items) }
    ensures more { length pieces.old.items ≤ length pieces.new.items }
    ensures same { (b : ℕ) → entry_at pieces.new.items b ≡ entry_at pieces.old.items b }
{
    let count = (blocks as usize).div_ceil(BLOCKS);
    for k in pieces.len()..count {
        pieces.push(Piece::new(alloc)?)?;
    }
    Ok(())
}
