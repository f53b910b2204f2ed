//! Whether blocks are reserved.

ghost use Rattle.std.specs.Prelude.{◌≡◌, ◌↔◌, ◌≤◌, ◌+◌, length, IsTrue};
ghost use Rattle.std.specs.List.{list_all};
ghost use Rattle.jfs_bits.specs.Bits.{is_full};
ghost use Rattle.jfs_bmap.specs.States.{AreReserved, is_reserved};
ghost use Rattle.jfs_bmap.specs.Overlap.{begins_before, overlap, are_apart, overlaps_one};

use crate::block_map::BlockMap;
use jfs_bits::{Pxd, PxdList};

impl BlockMap {
    /// Whether the blocks of these runs are reserved and stand there once, as `own` and `give_back` ask. It looks at each block, and at each pair of runs. Takes no memory.
    pub fn are_reserved(&self, list: &PxdList) -> bool
        ensures { IsTrue result ↔ AreReserved self.now list.now }
    {
        let runs = list.as_slice();
        self.all_reserved(runs) && are_apart(runs)
    }

    /// Whether the blocks of each run are reserved.
    fn all_reserved(&self, runs: &[Pxd]) -> bool
        ensures { result ≡ list_all (λ run. is_full (is_reserved self.now) run.addr run.len) runs.now }
    {
        let mut rest = runs;
        while let Some((run, more)) = rest.split_first() {
            if !self.is_reserved_run(run) {
                return false;
            }
            rest = more;
        }
        true
    }

    /// Whether the blocks of a run are reserved.
    fn is_reserved_run(&self, run: &Pxd) -> bool
        ensures { result ≡ is_full (is_reserved self.now) run.now.addr run.now.len }
    {
        let (first, n) = (run.addr, run.len);
        let blocks = u64::from(self.owned.blocks());
        if n == 0 {
            return true;
        }
        if first >= blocks || u64::from(n) > blocks - first {
            return false;
        }
        self.are_reserved_from(first as u32, n)
    }

    /// Whether the `n` blocks from `first` on are reserved.
    fn are_reserved_from(&self, first: u32, n: u32) -> bool
        requires { first + n ≤ length self.now.states }
        ensures { result ≡ is_full (is_reserved self.now) first n }
    {
        // that the volume's number of blocks has its bound
        let _ = &self.owned;
        for i in 0..n {
            if !self.is_reserved(first + i) {
                return false;
            }
        }
        true
    }

    /// Whether block `b` is reserved.
    fn is_reserved(&self, b: u32) -> bool
        ensures { result ≡ is_reserved self.now b }
    {
        self.held.is_taken(b) && !self.owned.is_taken(b)
    }
}

/// Whether no block stands in two of these runs.
fn are_apart(runs: &[Pxd]) -> bool
    ensures { result ≡ are_apart runs.now }
{
    let mut rest = runs;
    while let Some((run, more)) = rest.split_first() {
        if overlaps_one(run, more) {
            return false;
        }
        rest = more;
    }
    true
}

/// Whether a run has a block of one of the others.
fn overlaps_one(run: &Pxd, others: &[Pxd]) -> bool
    ensures { result ≡ overlaps_one run.now others.now }
{
    let mut rest = others;
    while let Some((other, more)) = rest.split_first() {
        if overlap(run, other) {
            return true;
        }
        rest = more;
    }
    false
}

/// Whether two runs have a block in common.
fn overlap(one: &Pxd, other: &Pxd) -> bool
    ensures { result ≡ overlap one.now other.now }
{
    begins_before(one, other) && begins_before(other, one)
}

/// Whether a run has a block, and begins before the end of another.
fn begins_before(one: &Pxd, other: &Pxd) -> bool
    ensures { result ≡ begins_before one.now other.now }
{
    let (first, n) = (one.addr, one.len);
    let (from, len) = (other.addr, other.len);
    n > 0 && (first < from || first - from < u64::from(len))
}
